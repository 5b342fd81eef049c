//! Where a rule of expressions is tested, and where it isn't.

ghost use Rattle.std.specs.Prelude.{◌≡◌, ◌++◌, IfOk};
ghost use Rattle.vhdl_units.specs.Faults as faults_spec;
ghost use Rattle.vhdl_names_typing.specs.Faults as spec;

use crate::told::{Form, Told};
use sqlite_items::Items;
use std::alloc::{AllocError, Global};
use vhdl_names_operators::fits_alone;
use vhdl_units::{BaseType, Fault, Rule};

/// The faults of both lists. The second is moved to the end of the first.
pub fn append(mut to: Items<Fault>, from: Items<Fault>) -> Result<Items<Fault>, AllocError>
    ensures { IfOk result (λ all. all ≡ to ++ from) }
{
    to.append(from)?;
    Ok(to)
}

/// The fault that a rule is broken at a place, in bytes from 0.
pub fn at(alloc: Global, place: u32, rule: Rule) -> Result<Items<Fault>, AllocError>
    ensures { IfOk result (λ faults. faults ≡ faults_spec.at place rule) }
{
    Items::from_slice(alloc, &[Fault { place, rule }])
}

/// Whether no name in an expression breaks a rule of visibility, of kinds or of attributes. Its types are
/// tested only then.
#[tactic(auto, unfolding(crate::specs::Faults::is_known))]
pub fn is_known(names: &[Fault]) -> bool
    ensures { result ≡ spec.is_known names.now }
{
    names.is_empty()
}

/// The fault that a rule is broken at a place, where it is and the names in the expression are known.
#[tactic(auto, unfolding(crate::specs::Faults::break_if))]
pub fn break_if(
    alloc: Global,
    broken: bool,
    names: &[Fault],
    place: u32,
    rule: Rule,
) -> Result<Items<Fault>, AllocError>
    ensures { IfOk result (λ faults. faults ≡ spec.break_if broken names.now place rule) }
{
    if broken && is_known(names) {
        at(alloc, place, rule)
    } else {
        Ok(Items::new(alloc))
    }
}

/// The fault of an expression that can't have the type that its place asks for (12.5).
#[tactic(auto, unfolding(crate::specs::Faults::asks))]
pub fn asks(alloc: Global, base: BaseType, told: &Told) -> Result<Items<Fault>, AllocError>
    ensures { IfOk result (λ faults. faults ≡ spec.asks base told.now) }
{
    let broken = !fits_alone(base, &told.types);
    break_if(alloc, broken, told.names.as_slice(), told.place, Rule::Type)
}

/// Whether an expression is an aggregate with `others`.
#[tactic(auto, unfolding(crate::specs::Faults::has_others))]
fn has_others(form: Form) -> bool
    ensures { result ≡ spec.has_others form }
{
    match form {
        Form::Others(_) => true,
        _ => false,
    }
}

/// The fault of an aggregate with `others` where no bounds are known (9.3.3.3).
#[tactic(auto, unfolding(crate::specs::Faults::without_bounds))]
pub fn without_bounds(alloc: Global, told: &Told) -> Result<Items<Fault>, AllocError>
    ensures { IfOk result (λ faults. faults ≡ spec.without_bounds told.now) }
{
    let broken = has_others(told.form);
    break_if(
        alloc,
        broken,
        told.names.as_slice(),
        told.place,
        Rule::Aggregate,
    )
}

/// Whether an expression is an aggregate with `others` beside other choices.
#[tactic(auto, unfolding(crate::specs::Faults::others_beside))]
fn others_beside(form: Form) -> bool
    ensures { result ≡ spec.others_beside form }
{
    match form {
        Form::Others(beside) => beside,
        _ => false,
    }
}

/// The fault of an aggregate with `others` beside other choices, where its bounds aren't globally static
/// (9.3.3.3).
#[tactic(auto, unfolding(crate::specs::Faults::with_bounds))]
pub fn with_bounds(alloc: Global, is_static: bool, told: &Told) -> Result<Items<Fault>, AllocError>
    ensures { IfOk result (λ faults. faults ≡ spec.with_bounds is_static told.now) }
{
    let broken = !is_static && others_beside(told.form);
    break_if(
        alloc,
        broken,
        told.names.as_slice(),
        told.place,
        Rule::Aggregate,
    )
}

/// The faults of types, aggregates and numbers in an operand, an index, a bound or an argument, which is moved
/// into them.
#[tactic(auto, unfolding(crate::specs::Faults::typing_of))]
pub fn typing_of(alloc: Global, told: Told) -> Result<Items<Fault>, AllocError>
    ensures { IfOk result (λ faults. faults ≡ spec.typing_of told) }
{
    let more = without_bounds(alloc, &told)?;
    let (_names, typing) = told.into_faults();
    append(typing, more)
}
