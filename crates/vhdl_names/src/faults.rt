//! The units of a design file with their meanings, or which rule it breaks first.

ghost use Rattle.std.specs.Prelude.{◌≡◌, ℕ, IfOk, List, Option};
ghost use Rattle.vhdl_names.specs.Static.{is_before, Static};
ghost use Rattle.vhdl_names.specs.First.{earlier, IsFirst};
ghost use Rattle.vhdl_names.specs.Resolved.{Resolved};
ghost use Rattle.vhdl_names.specs.Parts.{all_at, events_of};
ghost use Rattle.vhdl_names.specs.Units.{of_units, units_of};
ghost use Rattle.vhdl_names_checker.specs.Progress.{walk};
ghost use Rattle.vhdl_tree.specs.declared.units.DesignFile.{DesignFile};
ghost use Rattle.vhdl_units.specs.declared.fault.Fault.{Fault};

use crate::architectures::architectures;
use crate::units::check_units;
use std::alloc::{AllocError, Global};
use vhdl_names_checker::Checker;
use vhdl_tree::DesignFile;
use vhdl_units::{Fault, Held, Units};

#[tactic(auto, unfolding(crate::specs::Static::is_before))]
fn is_before(fault: &Fault, other: &Fault) -> bool
    ensures { result ≡ is_before fault.now other.now }
{
    fault.place < other.place
        || (fault.place == other.place && fault.rule.number() <= other.rule.number())
}

#[tactic(auto, unfolding(crate::specs::First::earlier))]
fn earlier(first: Option<Fault>, fault: Fault) -> Fault
    ensures { result ≡ earlier first fault }
{
    match first {
        Some(first) => {
            if is_before(&first, &fault) {
                first
            } else {
                fault
            }
        }
        None => fault,
    }
}

/// The fault that comes before all others, if there is any.
pub(crate) fn first_of(faults: &[Fault]) -> Option<Fault>
    ensures { IsFirst faults.now result }
{
    let mut first = None;
    for fault in faults {
        first = Some(earlier(first, *fault));
    }
    first
}

/// Why a design file has no resolved units: the static rule that it breaks first, or want of memory.
#[derive(Clone, Copy, Debug, PartialEq, Eq)]
pub enum StaticError {
    /// The rule that is broken first, and the place.
    Static(Fault),
    /// Want of memory.
    NoMemory,
}

/// The units of a design file as far as they have a meaning, and the rule that is broken first on the way along it.
fn units_along(
    checker: &mut Checker<'_>,
    text: &[u8],
    tree: &DesignFile,
) -> Result<(Units, Option<Fault>), AllocError>
    ensures fault { IfOk result (λ found. IsFirst (walk (events_of (of_units text.now tree.now.units)) checker.old).broken found.1) }
    ensures units { IfOk result (λ found. found.0.units ≡ all_at (of_units text.now tree.now.units) checker.old) }
{
    let units = check_units(checker, text, tree.units.as_slice())?;
    let first = first_of(checker.broken());
    Ok((Units { units }, first))
}

/// The units of a design file as far as they have a meaning, and the rule that it breaks first.
fn units_and_fault(
    alloc: Global,
    text: &[u8],
    tree: &DesignFile,
) -> Result<(Units, Option<Fault>), AllocError>
    ensures fault { IfOk result (λ found. Static text.now tree.now found.1) }
    ensures units { IfOk result (λ found. found.0 ≡ units_of text.now tree.now) }
{
    let file = architectures(alloc, text, tree)?;
    let file = Held::new(file);
    let mut checker = Checker::new(alloc, text, file.get())?;
    match units_along(&mut checker, text, tree) {
        Ok(found) => {
            drop(checker);
            Ok(found)
        }
        Err(error) => {
            drop(checker);
            Err(error)
        }
    }
}

/// Gives the names of a design file their meanings: its units, with what each name denotes, the type of each
/// expression, which indices and slices are globally static, and the lines and spellings of the text. They are
/// given exactly where no static rule is broken. Else the rule is answered whose place comes first in the text,
/// and of several at one place the one of the least number (12, 13). The tokens of the tree are places of the
/// text, in bytes from 0.
pub fn resolve_names(alloc: Global, text: &[u8], tree: &DesignFile) -> Result<Units, StaticError>
    ensures { Resolved text.now tree.now result }
{
    match units_and_fault(alloc, text, tree) {
        Ok((units, None)) => Ok(units),
        Ok((_, Some(fault))) => Err(StaticError::Static(fault)),
        Err(_) => Err(StaticError::NoMemory),
    }
}

/// A design file has one answer: the rule that is broken first, or that none is broken.
pub fn one_first_fault()
    ensures some { (text : List ℕ) (tree : DesignFile) → (first : Option Fault) × Static text tree first }
    ensures one { (text : List ℕ) (tree : DesignFile) (first other : Option Fault) →
        Static text tree first → Static text tree other → first ≡ other }
{}
