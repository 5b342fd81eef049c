//! What expressions tell: the rules that they break, the types that they can have, and whether they are static and
//! read an object.

use crate::entries::{entry_of, push_types};
use crate::out::Out;
use crate::texts::bytes_of;
use crate::trouble::Trouble;
use crate::units::tree_of;
use std::alloc::{AllocError, Global};
use vhdl_names_scope::{Region, Regions, standard};
use vhdl_names_typing::{Told, tell};
use vhdl_tree::{Declaration, DesignFile, Expr, LibraryUnit};
use vhdl_units::Fault;

/// What stands before an expression.
const FRONT: &[u8] = b"architecture a of e is constant c : integer := ";

/// The value of the first constant of the first unit.
fn first_value(tree: &DesignFile) -> Option<&Expr> {
    let unit = tree.units.as_slice().first()?;
    match &unit.unit {
        LibraryUnit::Architecture(architecture) => {
            match architecture.declarations.as_slice().first()? {
                Declaration::Constant(constant) => Some(&constant.value),
                _ => None,
            }
        }
        _ => None,
    }
}

/// The rules that are broken, with places from the begin of the expression.
fn push_faults(out: &mut Out, faults: &[Fault]) {
    for fault in faults {
        out.show(fault.rule);
        out.put("@");
        out.show((fault.place as usize).saturating_sub(FRONT.len()));
        out.put(" ");
    }
}

fn push_told(out: &mut Out, told: &Told) {
    push_faults(out, told.names.as_slice());
    push_faults(out, told.typing.as_slice());
    push_types(out, &told.types);
    if told.is_static {
        out.put("static ");
    }
    if told.reads {
        out.put("reads ");
    }
}

fn shown(alloc: Global, told: &Told) -> Result<String, AllocError> {
    let mut out = Out::new(alloc);
    push_told(&mut out, told);
    out.finish_list()
}

fn text_with(alloc: Global, expression: &str) -> Result<Vec<u8>, Trouble> {
    let mut text = Vec::from_slice(alloc, FRONT)?;
    text.extend_from_slice(bytes_of(alloc, expression)?.as_slice())?;
    text.extend_from_slice(b"; begin end;")?;
    Ok(text)
}

/// What is visible: what always is, and these meanings of `x`.
fn regions_with(alloc: Global, entries: &str) -> Result<Regions, Trouble> {
    let mut regions = Regions::new(alloc, standard(alloc)?);
    regions.open(alloc, Region::new(alloc))?;
    for entry in entries.split(", ") {
        let entry = entry_of(entry)?;
        regions.add(String::from_str(alloc, "x")?, entry)?;
    }
    Ok(regions)
}

fn tells(alloc: Global, expression: &str, regions: &Regions) -> Result<String, Trouble> {
    let text = text_with(alloc, expression)?;
    let tree = tree_of(alloc, text.as_slice())?;
    let value = first_value(&tree).ok_or(Trouble::Malformed)?;
    let told = tell(alloc, text.as_slice(), regions, value)?;
    Ok(shown(alloc, &told)?)
}

/// What an expression tells: the expression, and behind a bar what `x` denotes in it.
pub fn told_came(alloc: Global, given: &str) -> Result<String, Trouble> {
    match given.split_once(" | ") {
        Some((expression, entries)) => { tells(alloc, expression, &regions_with(alloc, entries)?) }
        None => tells(alloc, given, &Regions::new(alloc, standard(alloc)?)),
    }
}
