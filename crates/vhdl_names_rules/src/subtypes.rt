//! Subtype indications, and the ranges of loops (5.2.1, 5.3.2, 6.3).

ghost use Rattle.std.specs.Prelude.{◌≡◌, ◌++◌, IfOk};
ghost use Rattle.vhdl_names_operators.specs.Places.{common_discrete};
ghost use Rattle.vhdl_names_typing.specs.Faults as faults_spec;
ghost use Rattle.vhdl_names_typing.specs.Ranges as ranges_spec;
ghost use Rattle.vhdl_names_rules.specs.Subtypes as spec;

use crate::told::SubtypeTold;
use crate::values::{Breaks, asks_if_known, breaks_of};
use sqlite_items::Items;
use std::alloc::{AllocError, Global};
use vhdl_names_operators::common_discrete;
use vhdl_names_overloads::Meanings;
use vhdl_names_typing::{BoundsTold, NameTold, Told, append, at, break_if};
use vhdl_units::{BaseType, Entry, Fault, Mark, Rule};

/// The subtype that a type's name denotes, by the entries of that name. There is none where it is of another
/// kind.
#[tactic(auto, unfolding(crate::specs::Subtypes::mark_in))]
pub fn mark_in(entries: &Meanings) -> Option<Mark>
    ensures { result ≡ spec.mark_in entries.now }
{
    match entries.first() {
        Some(Entry::Subtype(mark)) => Some(mark),
        _ => None,
    }
}

/// The faults of a type's name at `place`, in bytes from 0, by the entries of that name: it isn't declared, or
/// is of another kind (12.3).
#[tactic(auto, unfolding(crate::specs::Subtypes::mark_names))]
pub fn mark_names(alloc: Global, place: u32, entries: &Meanings) -> Result<Items<Fault>, AllocError>
    ensures { IfOk result (λ faults. faults ≡ spec.mark_names place entries.now) }
{
    match entries.first() {
        None => at(alloc, place, Rule::Undeclared),
        Some(Entry::Subtype(_)) => Ok(Items::new(alloc)),
        Some(_) => at(alloc, place, Rule::WrongKind),
    }
}

/// The fault of a bound that isn't globally static (6.3).
#[tactic(auto, unfolding(crate::specs::Subtypes::unstatic))]
fn unstatic(alloc: Global, told: &Told) -> Result<Items<Fault>, AllocError>
    ensures { IfOk result (λ faults. faults ≡ spec.unstatic told.now) }
{
    let names = told.names.as_slice();
    break_if(alloc, !told.is_static, names, told.place, Rule::Constraint)
}

/// What a bound breaks by itself and at its place.
#[tactic(auto, unfolding(crate::specs::Subtypes::bound_typing))]
fn bound(alloc: Global, base: Option<BaseType>, told: Told) -> Result<Breaks, AllocError>
    ensures { IfOk result (λ breaks. breaks ≡ record {
      names = told.names;
      typing = spec.bound_typing base told;
    }) }
{
    let asked = asks_if_known(alloc, base, &told)?;
    let found = append(asked, unstatic(alloc, &told)?)?;
    let Breaks { names, typing } = breaks_of(alloc, told)?;
    Ok(Breaks {
        names,
        typing: append(typing, found)?,
    })
}

/// Whether the type that is asked of bounds is INTEGER, of which the range of an array is, or isn't known.
#[tactic(auto, unfolding(crate::specs::Subtypes::is_integer_asked))]
fn is_integer_asked(base: Option<BaseType>) -> bool
    ensures { result ≡ spec.is_integer_asked base }
{
    match base {
        Some(base) => base.is(BaseType::Integer),
        None => true,
    }
}

/// What the range of an array breaks by itself and at its place.
#[tactic(auto, unfolding(crate::specs::Subtypes::range_typing))]
fn range(alloc: Global, base: Option<BaseType>, name: NameTold) -> Result<Breaks, AllocError>
    ensures { IfOk result (λ breaks. breaks ≡ record {
      names = name.names;
      typing = spec.range_typing base name;
    }) }
{
    let (is_asked, place) = (is_integer_asked(base), name.place);
    let wrong_type = break_if(alloc, !is_asked, name.names.as_slice(), place, Rule::Type)?;
    let names = name.names.as_slice();
    let unstatic = break_if(alloc, !name.is_static, names, place, Rule::Constraint)?;
    let found = append(wrong_type, unstatic)?;
    let (names, typing) = name.into_faults();
    Ok(Breaks {
        names,
        typing: append(typing, found)?,
    })
}

/// The faults of two bounds, one behind the other.
fn both(left: Breaks, right: Breaks) -> Result<Breaks, AllocError>
    ensures { IfOk result (λ breaks. breaks ≡ record {
      names = left.names ++ right.names;
      typing = left.typing ++ right.typing;
    }) }
{
    Ok(Breaks {
        names: append(left.names, right.names)?,
        typing: append(left.typing, right.typing)?,
    })
}

/// What bounds break by themselves and at their place.
#[tactic(auto, unfolding(crate::specs::Subtypes::bounds_typing, vhdl_names_typing::specs::Ranges::bounds_names))]
fn bounds_of(
    alloc: Global,
    base: Option<BaseType>,
    bounds: BoundsTold,
) -> Result<Breaks, AllocError>
    ensures { IfOk result (λ breaks. breaks ≡ record {
      names = ranges_spec.bounds_names bounds;
      typing = spec.bounds_typing base bounds;
    }) }
{
    match bounds {
        BoundsTold::Range(left, right) => {
            let left = bound(alloc, base, left)?;
            both(left, bound(alloc, base, right)?)
        }
        BoundsTold::Name(name) => range(alloc, base, name),
    }
}

/// The fault of a bound that reads a signal or variable.
#[tactic(auto, unfolding(crate::specs::Subtypes::bound_reads))]
fn bound_reads(alloc: Global, reads: bool, place: u32) -> Result<Items<Fault>, AllocError>
    ensures { IfOk result (λ faults. faults ≡ spec.bound_reads reads place) }
{
    if reads {
        at(alloc, place, Rule::ReadsObject)
    } else {
        Ok(Items::new(alloc))
    }
}

/// The faults of bounds that read signals or variables.
#[tactic(auto, unfolding(crate::specs::Subtypes::bounds_reads))]
fn bounds_reads(alloc: Global, bounds: &BoundsTold) -> Result<Items<Fault>, AllocError>
    ensures { IfOk result (λ faults. faults ≡ spec.bounds_reads bounds.now) }
{
    match bounds {
        BoundsTold::Range(left, right) => {
            let faults = bound_reads(alloc, left.reads, left.place)?;
            append(faults, bound_reads(alloc, right.reads, right.place)?)
        }
        BoundsTold::Name(name) => bound_reads(alloc, name.reads, name.place),
    }
}

/// Whether a range narrows a type: a scalar type that isn't resolved (6.3).
#[tactic(auto, unfolding(crate::specs::Subtypes::takes_range))]
fn takes_range(mark: Mark) -> bool
    ensures { result ≡ spec.takes_range mark }
{
    !mark.resolved && !mark.base.is_array()
}

/// Whether the bounds of an index narrow a type: an array type that has none (5.3.2.2).
#[tactic(auto, unfolding(crate::specs::Subtypes::takes_index))]
fn takes_index(mark: Mark) -> bool
    ensures { result ≡ spec.takes_index mark }
{
    mark.base.is_array() && !mark.bounded
}

/// The type that is asked of the bounds of a range. None is where the type is an array type.
#[tactic(auto, unfolding(crate::specs::Subtypes::range_type))]
fn range_type(mark: Option<Mark>) -> Option<BaseType>
    ensures { result ≡ spec.range_type mark }
{
    match mark {
        Some(mark) if mark.base.is_array() => None,
        Some(mark) => Some(mark.base),
        None => None,
    }
}

/// The type that is asked of the bounds of an index. None is where the type takes none.
#[tactic(auto, unfolding(crate::specs::Subtypes::index_type))]
fn index_type(mark: Option<Mark>) -> Option<BaseType>
    ensures { result ≡ spec.index_type mark }
{
    match mark {
        Some(mark) if takes_index(mark) => Some(BaseType::Integer),
        _ => None,
    }
}

#[tactic(auto, unfolding(crate::specs::Subtypes::misfit))]
fn misfit(alloc: Global, fits: bool, place: u32) -> Result<Items<Fault>, AllocError>
    ensures { IfOk result (λ faults. faults ≡ spec.misfit fits place) }
{
    if fits {
        Ok(Items::new(alloc))
    } else {
        at(alloc, place, Rule::Constraint)
    }
}

/// The fault of a range on a type that takes none.
#[tactic(auto, unfolding(crate::specs::Subtypes::range_misfit))]
fn range_misfit(alloc: Global, mark: Option<Mark>, place: u32) -> Result<Items<Fault>, AllocError>
    ensures { IfOk result (λ faults. faults ≡ spec.range_misfit mark place) }
{
    match mark {
        Some(mark) => misfit(alloc, takes_range(mark), place),
        None => Ok(Items::new(alloc)),
    }
}

/// The fault of the bounds of an index on a type that takes none.
#[tactic(auto, unfolding(crate::specs::Subtypes::index_misfit))]
fn index_misfit(alloc: Global, mark: Option<Mark>, place: u32) -> Result<Items<Fault>, AllocError>
    ensures { IfOk result (λ faults. faults ≡ spec.index_misfit mark place) }
{
    match mark {
        Some(mark) => misfit(alloc, takes_index(mark), place),
        None => Ok(Items::new(alloc)),
    }
}

/// The subtype with the bounds of an index.
#[tactic(auto, unfolding(crate::specs::Subtypes::with_index))]
pub fn with_index(mark: Option<Mark>) -> Option<Mark>
    ensures { result ≡ spec.with_index mark }
{
    match mark {
        Some(mark) => Some(Mark {
            number: mark.number,
            base: mark.base,
            resolved: mark.resolved,
            bounded: mark.base.is_array(),
        }),
        None => None,
    }
}

/// What a subtype indication tells that is a type's name alone, at `place` in bytes from 0 (6.3). `names` are
/// the faults of that name, and `mark` is what it denotes.
#[tactic(auto, unfolding(crate::specs::Subtypes::unconstrained))]
pub fn unconstrained(
    alloc: Global,
    place: u32,
    names: Items<Fault>,
    mark: Option<Mark>,
) -> SubtypeTold
    ensures { result ≡ spec.unconstrained place names mark }
{
    SubtypeTold {
        place,
        names,
        typing: Items::new(alloc),
        constraint: Items::new(alloc),
        mark,
    }
}

/// What a subtype indication with a range tells (5.2.1, 6.3), of a type's name at `place` in bytes from 0, with
/// the faults `names`, that denotes `mark`.
#[tactic(auto, unfolding(crate::specs::Subtypes::ranged))]
pub fn ranged(
    alloc: Global,
    place: u32,
    names: Items<Fault>,
    mark: Option<Mark>,
    bounds: BoundsTold,
) -> Result<SubtypeTold, AllocError>
    ensures { IfOk result (λ told. told ≡ spec.ranged place names mark bounds) }
{
    let misfit = range_misfit(alloc, mark, place)?;
    let constraint = append(misfit, bounds_reads(alloc, &bounds)?)?;
    let breaks = bounds_of(alloc, range_type(mark), bounds)?;
    Ok(SubtypeTold {
        place,
        names: append(names, breaks.names)?,
        typing: breaks.typing,
        constraint,
        mark,
    })
}

/// What a subtype indication with the bounds of an index tells (5.3.2.2, 6.3), of a type's name at `place` in
/// bytes from 0, with the faults `names`, that denotes `mark`.
#[tactic(auto, unfolding(crate::specs::Subtypes::indexed))]
pub fn indexed(
    alloc: Global,
    place: u32,
    names: Items<Fault>,
    mark: Option<Mark>,
    bounds: BoundsTold,
) -> Result<SubtypeTold, AllocError>
    ensures { IfOk result (λ told. told ≡ spec.indexed place names mark bounds) }
{
    let misfit = index_misfit(alloc, mark, place)?;
    let constraint = append(misfit, bounds_reads(alloc, &bounds)?)?;
    let breaks = bounds_of(alloc, index_type(mark), bounds)?;
    Ok(SubtypeTold {
        place,
        names: append(names, breaks.names)?,
        typing: breaks.typing,
        constraint,
        mark: with_index(mark),
    })
}

/// The type of the parameter of a `for` loop over a range: the one discrete type that its bounds have in common
/// (5.3.2.1, 10.10).
#[tactic(auto, unfolding(crate::specs::Subtypes::loop_type))]
pub fn loop_type(bounds: &BoundsTold) -> Option<BaseType>
    ensures { result ≡ spec.loop_type bounds.now }
{
    match bounds {
        BoundsTold::Range(left, right) => common_discrete(&left.types, &right.types),
        BoundsTold::Name(_) => Some(BaseType::Integer),
    }
}

/// The faults of the two bounds of a loop's range, whose one discrete type in common is `base`.
#[tactic(auto, unfolding(crate::specs::Subtypes::uncommon))]
fn loop_bounds(
    alloc: Global,
    left: Told,
    right: Told,
    base: Option<BaseType>,
) -> Result<Items<Fault>, AllocError>
    requires { base ≡ common_discrete left.types right.types }
    ensures { IfOk result (λ faults. faults ≡ (left.names ++ right.names) ++
        ((faults_spec.typing_of left ++ faults_spec.typing_of right) ++ spec.uncommon left right)) }
{
    let (broken, place) = (base.is_none(), left.place);
    let left = breaks_of(alloc, left)?;
    let Breaks { names, typing } = both(left, breaks_of(alloc, right)?)?;
    let uncommon = break_if(alloc, broken, names.as_slice(), place, Rule::Type)?;
    append(names, append(typing, uncommon)?)
}

/// The faults of the range of a `for` loop: its bounds have exactly one discrete type in common (5.3.2.1, 10.10).
/// `base` is what `loop_type` gave for them.
#[tactic(auto, unfolding(crate::specs::Subtypes::loop_range, crate::specs::Subtypes::loop_type))]
pub fn loop_range(
    alloc: Global,
    bounds: BoundsTold,
    base: Option<BaseType>,
) -> Result<Items<Fault>, AllocError>
    requires { base ≡ spec.loop_type bounds }
    ensures { IfOk result (λ faults. faults ≡ spec.loop_range bounds) }
{
    match bounds {
        BoundsTold::Range(left, right) => loop_bounds(alloc, left, right, base),
        BoundsTold::Name(name) => {
            let (names, typing) = name.into_faults();
            append(names, typing)
        }
    }
}
