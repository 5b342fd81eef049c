//! What a place asks of the value that stands there.

ghost use Rattle.std.specs.Prelude.{◌≡◌, ◌++◌, IfOk, Some};
ghost use Rattle.vhdl_units.specs.declared.base_type.BaseType.TheVariants as base;
ghost use Rattle.vhdl_names_typing.specs.Faults as faults_spec;
ghost use Rattle.vhdl_names_rules.specs.Values as spec;

use sqlite_items::Items;
use std::alloc::{AllocError, Global};
use vhdl_names_typing::{Told, append, asks, with_bounds, without_bounds};
use vhdl_units::{BaseType, Fault};

/// What an expression breaks by itself, whatever its place asks.
#[derive(Drop)]
pub(crate) struct Breaks {
    /// The breaks in it of the rules of visibility, kinds and attributes.
    pub names: Items<Fault>,
    /// The breaks in it of the rules of types, aggregates and numbers, where its place gives no bounds.
    pub typing: Items<Fault>,
}

/// What an expression breaks by itself. Its faults are moved out of it.
#[tactic(auto, unfolding(vhdl_names_typing::specs::Faults::typing_of))]
pub(crate) fn breaks_of(alloc: Global, told: Told) -> Result<Breaks, AllocError>
    ensures { IfOk result (λ breaks. breaks ≡ record {
      names = told.names;
      typing = faults_spec.typing_of told;
    }) }
{
    let more = without_bounds(alloc, &told)?;
    let (names, typing) = told.into_faults();
    Ok(Breaks {
        names,
        typing: append(typing, more)?,
    })
}

/// The faults of an expression whose place gives no bounds, and then those that its place finds.
pub(crate) fn told_and(
    alloc: Global,
    told: Told,
    found: Items<Fault>,
) -> Result<Items<Fault>, AllocError>
    ensures { IfOk result (λ faults. faults ≡
        told.names ++ (faults_spec.typing_of told ++ found)) }
{
    let Breaks { names, typing } = breaks_of(alloc, told)?;
    append(names, append(typing, found)?)
}

/// The fault of an expression that can't have the type of its place, where that is known (12.5).
#[tactic(auto, unfolding(crate::specs::Values::asks_if_known))]
pub(crate) fn asks_if_known(
    alloc: Global,
    base: Option<BaseType>,
    told: &Told,
) -> Result<Items<Fault>, AllocError>
    ensures { IfOk result (λ faults. faults ≡ spec.asks_if_known base told.now) }
{
    match base {
        Some(base) => asks(alloc, base, told),
        None => Ok(Items::new(alloc)),
    }
}

/// The faults of an expression at a place that gives no bounds, and the type, if it is known which (12.5).
#[tactic(auto, unfolding(crate::specs::Values::asked))]
pub fn asked(alloc: Global, base: Option<BaseType>, told: Told) -> Result<Items<Fault>, AllocError>
    ensures { IfOk result (λ faults. faults ≡ spec.asked base told) }
{
    let found = asks_if_known(alloc, base, &told)?;
    told_and(alloc, told, found)
}

/// The faults of an expression that is the value of an object, whose bounds are known, and globally static or
/// not. Its type is asked, if it is known which (9.3.3.3, 12.5).
#[tactic(auto, unfolding(crate::specs::Values::valued))]
pub fn valued(
    alloc: Global,
    base: Option<BaseType>,
    is_static: bool,
    told: Told,
) -> Result<Items<Fault>, AllocError>
    ensures { IfOk result (λ faults. faults ≡ spec.valued base is_static told) }
{
    let bounds = with_bounds(alloc, is_static, &told)?;
    let found = append(bounds, asks_if_known(alloc, base, &told)?)?;
    let (names, typing) = told.into_faults();
    append(names, append(typing, found)?)
}

/// The faults of an expression that may be left out.
#[tactic(auto, unfolding(crate::specs::Values::asked_optional))]
pub fn asked_optional(
    alloc: Global,
    base: BaseType,
    told: Option<Told>,
) -> Result<Items<Fault>, AllocError>
    ensures { IfOk result (λ faults. faults ≡ spec.asked_optional base told) }
{
    match told {
        Some(told) => asked(alloc, Some(base), told),
        None => Ok(Items::new(alloc)),
    }
}

/// The faults of a condition (9.2.9).
#[tactic(auto, unfolding(crate::specs::Values::tested))]
pub fn tested(alloc: Global, told: Told) -> Result<Items<Fault>, AllocError>
    ensures { IfOk result (λ faults. faults ≡ spec.tested told) }
{
    asked(alloc, Some(BaseType::Boolean), told)
}
