//! What a declaration adds to what stands around the places behind it, and whether its names are declared.

ghost use Rattle.std.specs.Prelude.{◌≡◌, [], IfOk, None, OnOk, string_bytes};
ghost use Rattle.vhdl_names_checker.specs.Declaring as spec;

use crate::surroundings::Surroundings;
use sqlite_items::Items;
use std::alloc::{AllocError, Global};
use vhdl_names_scope::word;
use vhdl_names_typing::at;
use vhdl_tokens::Token;
use vhdl_tree::TypeDeclaration;
use vhdl_units::{BaseType, Class, Entry, Fault, Mark, Object, Rule};

// ---- a name that is declared twice in one region

#[tactic(auto, unfolding(crate::specs::Declaring::twice_if))]
fn twice_if(alloc: Global, is_declared: bool, place: u32) -> Result<Items<Fault>, AllocError>
    ensures { IfOk result (λ faults. faults ≡ spec.twice_if is_declared place) }
{
    if is_declared {
        at(alloc, place, Rule::DeclaredTwice)
    } else {
        Ok(Items::new(alloc))
    }
}

/// The fault of a name that is to be declared and is declared already in the innermost region (12.3).
#[tactic(auto, unfolding(crate::specs::Declaring::twice))]
pub fn twice(
    alloc: Global,
    text: &[u8],
    around: &Surroundings,
    token: &Token,
) -> Result<Items<Fault>, AllocError>
    ensures { IfOk result (λ faults. faults ≡ spec.twice text.now around.now.regions token.now) }
{
    let name = word(alloc, text, token)?;
    let is_declared = around.regions().declares_other(name.as_str());
    twice_if(alloc, is_declared, token.start)
}

// ---- objects

#[tactic(auto, unfolding(crate::specs::Declaring::object_numbered))]
pub fn object_numbered(number: usize, class: Class, base: BaseType) -> Object
    ensures { result ≡ spec.object_numbered number class base }
{
    Object {
        number,
        class,
        base,
    }
}

#[tactic(auto, unfolding(crate::specs::Declaring::with_object))]
fn with_object(
    around: &mut Surroundings,
    class: Class,
    name: String,
    object: Object,
) -> Result<(), AllocError>
    ensures { OnOk result (around.new ≡ spec.with_object class (string_bytes name) object around.old) }
{
    around.add_formal(class, &name, object)?;
    around.numbered(name, Entry::Object(object))?;
    Ok(())
}

#[tactic(auto, unfolding(crate::specs::Declaring::object_declared))]
fn object_declared(
    around: &mut Surroundings,
    alloc: Global,
    text: &[u8],
    class: Class,
    base: BaseType,
    token: &Token,
) -> Result<(), AllocError>
    ensures { OnOk result (around.new ≡ spec.object_declared text.now class base token.now around.old) }
{
    let name = word(alloc, text, token)?;
    let object = object_numbered(around.next_number(), class, base);
    with_object(around, class, name, object)?;
    Ok(())
}

/// Declares objects of one class and type, one after the other, and says which are declared already (6.4.2).
#[tactic(auto, unfolding(crate::specs::Declaring::objects_declared, crate::specs::Declaring::objects_twice))]
pub fn declare_objects(
    around: &mut Surroundings,
    alloc: Global,
    text: &[u8],
    class: Class,
    base: BaseType,
    tokens: &[Token],
) -> Result<Items<Fault>, AllocError>
    ensures declared { OnOk result (around.new ≡ spec.objects_declared text.now class base tokens.now around.old) }
    ensures twice { IfOk result (λ faults. faults ≡ spec.objects_twice text.now class base tokens.now around.old) }
{
    let mut faults = Items::new(alloc);
    for token in tokens {
        faults.append(twice(alloc, text, around, token)?)?;
        object_declared(around, alloc, text, class, base, token)?;
    }
    Ok(faults)
}

/// The type of an object. Where it isn't known, any: the fault that made it so stands before all places where
/// it shows.
#[tactic(auto, unfolding(crate::specs::Declaring::type_or))]
pub fn type_or(mark: Option<Mark>) -> BaseType
    ensures { result ≡ spec.type_or mark }
{
    match mark {
        Some(mark) => mark.base,
        None => BaseType::Integer,
    }
}

// ---- subtypes

#[tactic(auto, unfolding(crate::specs::Declaring::renumbered))]
fn renumbered(number: usize, mark: Option<Mark>) -> Mark
    ensures { result ≡ spec.renumbered number mark }
{
    match mark {
        Some(mark) => Mark { number, ..mark },
        None => Mark {
            number,
            base: BaseType::Integer,
            resolved: false,
            bounded: false,
        },
    }
}

/// Declares a subtype (6.3).
#[tactic(auto, unfolding(crate::specs::Declaring::subtype_declared))]
pub fn declare_subtype(
    around: &mut Surroundings,
    alloc: Global,
    text: &[u8],
    token: &Token,
    mark: Option<Mark>,
) -> Result<(), AllocError>
    ensures { OnOk result (around.new ≡ spec.subtype_declared text.now token.now mark around.old) }
{
    let name = word(alloc, text, token)?;
    let mark = renumbered(around.next_number(), mark);
    around.numbered(name, Entry::Subtype(mark))?;
    Ok(())
}

// ---- enumeration types

#[tactic(auto, unfolding(crate::specs::Declaring::enumeration))]
fn enumeration(number: usize) -> Mark
    ensures { result ≡ spec.enumeration number }
{
    Mark {
        number,
        base: BaseType::Own(number),
        resolved: false,
        bounded: false,
    }
}

#[tactic(auto, unfolding(crate::specs::Declaring::is_literal_of))]
fn is_literal_of(base: BaseType, entry: Entry) -> bool
    ensures { result ≡ spec.is_literal_of base entry }
{
    match entry {
        Entry::Literal(other, _) => base.is(other),
        _ => false,
    }
}

// Whether what a name was declared to be last in the innermost region is a literal of this type.
#[tactic(auto, unfolding(crate::specs::Declaring::is_last_literal, crate::specs::Declaring::own_entries))]
fn is_last_literal(around: &Surroundings, name: &str, base: BaseType) -> bool
    ensures { result ≡ spec.is_last_literal base (spec.own_entries name.now around.now) }
{
    match around.regions().last(name) {
        Some(entry) => is_literal_of(base, entry),
        None => false,
    }
}

#[tactic(auto, unfolding(crate::specs::Declaring::literal_declared))]
fn literal_declared(
    around: &mut Surroundings,
    name: String,
    base: BaseType,
    position: usize,
) -> Result<(), AllocError>
    ensures { OnOk result (around.new ≡ spec.literal_declared (string_bytes name) base position around.old) }
{
    if !is_last_literal(around, name.as_str(), base) {
        around.add_literal(name, base, position)?;
    }
    Ok(())
}

#[tactic(auto, unfolding(crate::specs::Declaring::literals_declared))]
fn literals_declared(
    around: &mut Surroundings,
    alloc: Global,
    text: &[u8],
    base: BaseType,
    tokens: &[Token],
) -> Result<(), AllocError>
    ensures { OnOk result (around.new ≡ spec.literals_declared text.now base 0 tokens.now around.old) }
{
    for (position, token) in tokens.iter().enumerate() {
        let name = word(alloc, text, token)?;
        literal_declared(around, name, base, position)?;
    }
    Ok(())
}

/// Declares an enumeration type and its literals (5.2.2).
#[tactic(auto, unfolding(crate::specs::Declaring::enumeration_declared))]
pub fn declare_enumeration(
    around: &mut Surroundings,
    alloc: Global,
    text: &[u8],
    declaration: &TypeDeclaration,
) -> Result<(), AllocError>
    ensures { OnOk result (around.new ≡ spec.enumeration_declared text.now declaration.now around.old) }
{
    let number = around.next_number();
    let name = word(alloc, text, &declaration.name)?;
    around.numbered(name, Entry::Subtype(enumeration(number)))?;
    literals_declared(
        around,
        alloc,
        text,
        BaseType::Own(number),
        declaration.literals.as_slice(),
    )?;
    Ok(())
}

// ---- labels

/// Declares a label (11.1, 12.3).
#[tactic(auto, unfolding(crate::specs::Declaring::label_declared))]
pub fn declare_label(
    around: &mut Surroundings,
    alloc: Global,
    text: &[u8],
    token: &Token,
) -> Result<(), AllocError>
    ensures { OnOk result (around.new ≡ spec.label_declared text.now token.now around.old) }
{
    let name = word(alloc, text, token)?;
    let number = around.next_number();
    around.numbered(name, Entry::Label(number))?;
    Ok(())
}
