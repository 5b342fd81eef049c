//! The text of a design file as its design.

ghost use Rattle.std.specs.Prelude.{◌≡◌, ◌≤◌, IfOk, length};
ghost use Rattle.sim_design.specs.Design.{IsSound, IsNumbered};
ghost use Rattle.sim_session.specs.Text.{IsRead, IsMet, IsBuilt, IsDesignOf};

use crate::{DesignFault, SessionFault};
use first_form::{FormError, design_of_form};
use sim_design::Design;
use std::alloc::Global;
use vhdl_names::{StaticError, resolve_names};
use vhdl_reader::read_design;
use vhdl_tokens::tokens;
use vhdl_tree::DesignFile;

// The design of a tree that meets the static rules.
fn built(alloc: Global, text: &[u8], tree: &DesignFile) -> Result<Design, SessionFault>
    ensures read { IsBuilt result text.now tree.now }
    ensures sound { IfOk result (λ d. IsSound d) }
    ensures numbered { IfOk result (λ d. IsNumbered d) }
{
    match design_of_form(alloc, text, tree) {
        Ok(design) => Ok(design),
        Err(FormError::NotBuilt) => Err(SessionFault::Design(DesignFault::NotBuilt)),
        Err(FormError::NoMemory) => Err(SessionFault::NoMemory),
    }
}

// Whether a tree meets the static rules. Its units aren't kept.
fn meets_rules(alloc: Global, text: &[u8], tree: &DesignFile) -> Result<(), SessionFault>
    ensures { IsMet result text.now tree.now }
{
    match resolve_names(alloc, text, tree) {
        Ok(_) => Ok(()),
        Err(StaticError::Static(fault)) => Err(SessionFault::Design(DesignFault::Static(fault))),
        Err(StaticError::NoMemory) => Err(SessionFault::NoMemory),
    }
}

// The design of a tree, or why there is none.
fn design_of(alloc: Global, text: &[u8], tree: &DesignFile) -> Result<Design, SessionFault>
    ensures read { IsDesignOf result text.now tree.now }
    ensures sound { IfOk result (λ d. IsSound d) }
    ensures numbered { IfOk result (λ d. IsNumbered d) }
{
    // No `?`: it would convert the fault to itself, of which the proof would need a lemma.
    match meets_rules(alloc, text, tree) {
        Ok(()) => built(alloc, text, tree),
        Err(fault) => Err(fault),
    }
}

/// Reads the text of a design file, of at most 1,048,576 bytes: its tokens, its tree, its names by the static rules, and
/// the design of the first form that it stands for; where it breaks a static rule, the one that is broken first; where it
/// breaks none and is of no such form, that it can't be run so far.
pub fn read_text(alloc: Global, text: &[u8]) -> Result<Design, SessionFault>
    requires { length text.now ≤ 1048576 }
    ensures read { IsRead result text.now }
    ensures sound { IfOk result (λ d. IsSound d) }
    ensures numbered { IfOk result (λ d. IsNumbered d) }
{
    let tokens = tokens(alloc, text)?;
    let tree = read_design(alloc, tokens.as_slice())?;
    let design = design_of(alloc, text, &tree)?;
    Ok(design)
}
