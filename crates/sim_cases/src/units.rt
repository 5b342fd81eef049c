//! What the units of a design file are.

use crate::out::Out;
use crate::printing::{push_contents, push_units};
use crate::sweeps::tokens_of;
use crate::trouble::Trouble;
use std::alloc::{AllocError, Global};
use vhdl_names::{StaticError, resolve_names};
use vhdl_reader::{SyntaxError, read_design};
use vhdl_tree::DesignFile;
use vhdl_units::{ResolvedUnit, Units};

/// The syntax tree of a text.
pub fn tree_of(alloc: Global, text: &[u8]) -> Result<DesignFile, Trouble> {
    let tokens = tokens_of(alloc, text)?;
    match read_design(alloc, tokens.as_slice()) {
        Ok(tree) => Ok(tree),
        Err(SyntaxError::NoMemory) => Err(Trouble::NoMemory),
        Err(_) => Err(Trouble::Malformed),
    }
}

/// The units of a text that breaks no rule.
pub fn units_of(alloc: Global, text: &[u8]) -> Result<Units, Trouble> {
    let tree = tree_of(alloc, text)?;
    match resolve_names(alloc, text, &tree) {
        Ok(units) => Ok(units),
        Err(StaticError::NoMemory) => Err(Trouble::NoMemory),
        Err(_) => Err(Trouble::Malformed),
    }
}

/// The units of a text, shown.
pub fn units_of_text(alloc: Global, text: &[u8]) -> Result<String, Trouble> {
    let units = units_of(alloc, text)?;
    let mut out = Out::new(alloc);
    push_units(&mut out, &units);
    Ok(out.finish()?)
}

fn push_architectures(out: &mut Out, units: &Units) {
    for unit in units.units.as_slice() {
        if let ResolvedUnit::Architecture(architecture) = unit {
            push_contents(out, architecture);
        }
    }
}

/// The text of a design file with this in its architecture.
pub fn design_with(alloc: Global, body: &[u8]) -> Result<Vec<u8>, AllocError> {
    let mut text = Vec::from_slice(alloc, b"entity e is end; architecture a of e is ")?;
    text.extend_from_slice(body)?;
    text.extend_from_slice(b" end;")?;
    Ok(text)
}

/// What stands in an architecture of this text, shown.
pub fn contents_of(alloc: Global, body: &[u8]) -> Result<String, Trouble> {
    let text = design_with(alloc, body)?;
    let units = units_of(alloc, text.as_slice())?;
    let mut out = Out::new(alloc);
    push_architectures(&mut out, &units);
    Ok(out.finish()?)
}
