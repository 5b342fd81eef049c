//! Types, and what a name may denote, as a case writes them.

use crate::out::Out;
use crate::texts::number_of;
use crate::trouble::Trouble;
use sqlite_items::Items;
use std::alloc::{AllocError, Global};
use vhdl_names_overloads::{Meanings, Types};
use vhdl_units::{BaseType, Class, Entry, Function, Mark, Object, TimeUnit};

const TYPES: [(&str, BaseType); 10] = [
    ("Boolean", BaseType::Boolean),
    ("Bit", BaseType::Bit),
    ("Character", BaseType::Character),
    ("StdUlogic", BaseType::StdUlogic),
    ("Integer", BaseType::Integer),
    ("Time", BaseType::Time),
    ("BitVector", BaseType::BitVector),
    ("StdUlogicVector", BaseType::StdUlogicVector),
    ("String", BaseType::String),
    ("IntegerVector", BaseType::IntegerVector),
];

/// The type of this name. `Own(30)` is one of the design's own.
pub fn type_of(word: &str) -> Result<BaseType, Trouble> {
    for (name, base) in &TYPES {
        if *name == word {
            return Ok(*base);
        }
    }
    let number = word.strip_prefix("Own(").ok_or(Trouble::Malformed)?;
    let number = number.strip_suffix(")").ok_or(Trouble::Malformed)?;
    Ok(BaseType::Own(number_of(number)?))
}

/// Types with blanks between them, or `none`.
pub fn type_list(alloc: Global, written: &str) -> Result<Items<BaseType>, Trouble> {
    let mut list = Items::new(alloc);
    if written != "none" {
        for word in written.split_whitespace() {
            list.push(type_of(word)?)?;
        }
    }
    Ok(list)
}

/// The set of these types.
pub fn types_of(alloc: Global, written: &str) -> Result<Types, Trouble> {
    Ok(Types::from_items(type_list(alloc, written)?))
}

/// Adds types, each with a blank behind it.
pub fn push_types(out: &mut Out, types: &Types) {
    for place in 0..types.len() {
        if let Some(base) = types.get(place) {
            out.show(base);
            out.put(" ");
        }
    }
}

/// Types as a case writes them.
pub fn types_shown(alloc: Global, types: &Types) -> Result<String, AllocError> {
    let mut out = Out::new(alloc);
    push_types(&mut out, types);
    out.finish_list()
}

/// One type as a case writes it.
pub fn type_shown(alloc: Global, base: Option<BaseType>) -> Result<String, AllocError> {
    match base {
        Some(base) => format!(in alloc; "{base:?}"),
        None => String::from_str(alloc, "none"),
    }
}

const CLASSES: [(&str, Class); 5] = [
    ("constant", Class::Constant),
    ("generic", Class::Generic),
    ("signal", Class::Signal),
    ("variable", Class::Variable),
    ("parameter", Class::Parameter),
];

fn class_of(word: &str) -> Result<Class, Trouble> {
    for (name, class) in &CLASSES {
        if *name == word {
            return Ok(*class);
        }
    }
    Err(Trouble::Malformed)
}

/// An object by its class, its number and its type.
fn object_of(word: &str, written: &str) -> Result<Entry, Trouble> {
    let class = class_of(word)?;
    let (number, base) = written.split_once(" ").ok_or(Trouble::Malformed)?;
    let (number, base) = (number_of(number)?, type_of(base)?);
    Ok(Entry::Object(Object {
        number,
        class,
        base,
    }))
}

fn function_of(word: &str) -> Option<Function> {
    match word {
        "RisingEdge" => Some(Function::RisingEdge),
        "FallingEdge" => Some(Function::FallingEdge),
        "ToX01" => Some(Function::ToX01),
        "Now" => Some(Function::Now),
        _ => None,
    }
}

fn unit_of(word: &str) -> Option<TimeUnit> {
    match word {
        "Femtosecond" => Some(TimeUnit::Femtosecond),
        "Microsecond" => Some(TimeUnit::Microsecond),
        "Hour" => Some(TimeUnit::Hour),
        _ => None,
    }
}

fn literal_of(written: &str) -> Result<Entry, Trouble> {
    let (base, position) = written.split_once(" ").ok_or(Trouble::Malformed)?;
    Ok(Entry::Literal(type_of(base)?, number_of(position)?))
}

/// A subtype by its number and its type, with `~` where it is resolved.
fn subtype_of(written: &str) -> Result<Entry, Trouble> {
    let (number, base) = written.split_once(" ").ok_or(Trouble::Malformed)?;
    let number = number_of(number)?;
    let resolved = base.ends_with("~");
    let base = type_of(base.strip_suffix("~").unwrap_or(base))?;
    Ok(Entry::Subtype(Mark {
        number,
        base,
        resolved,
        bounded: false,
    }))
}

/// What a name denotes, as `signal 0 Bit` or `literal Own(30) 1`.
pub fn entry_of(written: &str) -> Result<Entry, Trouble> {
    let (word, rest) = written.split_once(" ").ok_or(Trouble::Malformed)?;
    match word {
        "literal" => literal_of(rest),
        "subtype" => subtype_of(rest),
        "function" => Ok(Entry::Function(function_of(rest).ok_or(Trouble::Malformed)?)),
        "unit" => Ok(Entry::Unit(unit_of(rest).ok_or(Trouble::Malformed)?)),
        "label" => Ok(Entry::Label(number_of(rest)?)),
        _ => object_of(word, rest),
    }
}

fn class_word(class: Class) -> &'static str {
    match class {
        Class::Constant => "constant",
        Class::Generic => "generic",
        Class::Signal => "signal",
        Class::Port(_) => "port",
        Class::Variable => "variable",
        Class::Parameter => "parameter",
    }
}

fn push_mark(out: &mut Out, mark: Mark) {
    out.put("subtype ");
    out.show(mark.number);
    out.put(" ");
    out.show(mark.base);
    if mark.resolved {
        out.put("~");
    }
    if mark.bounded {
        out.put("[]");
    }
}

fn push_object(out: &mut Out, object: Object) {
    out.put(class_word(object.class));
    out.put(" ");
    out.show(object.number);
    out.put(" ");
    out.show(object.base);
}

fn push_literal(out: &mut Out, base: BaseType, position: usize) {
    out.put("literal ");
    out.show(base);
    out.put(" ");
    out.show(position);
}

fn push_entry(out: &mut Out, entry: Entry) {
    match entry {
        Entry::Subtype(mark) => push_mark(out, mark),
        Entry::Object(object) => push_object(out, object),
        Entry::Literal(base, position) => push_literal(out, base, position),
        Entry::Function(function) => {
            out.put("function ");
            out.show(function);
        }
        Entry::Unit(unit) => {
            out.put("unit ");
            out.show(unit);
        }
        Entry::Label(number) => {
            out.put("label ");
            out.show(number);
        }
    }
}

/// What a name denotes, as a case writes it.
pub fn meanings_shown(alloc: Global, meanings: &Meanings) -> Result<String, AllocError> {
    let mut out = Out::new(alloc);
    for place in 0..meanings.len() {
        if !out.is_empty() {
            out.put(", ");
        }
        if let Some(entry) = meanings.get(place) {
            push_entry(&mut out, entry);
        }
    }
    out.finish_list()
}
