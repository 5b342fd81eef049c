//! Two names at once, with the discrete types of which both have literals.

ghost use Rattle.std.specs.Prelude.{◌≡◌, ◌∷◌, [], IfOk, if◌then◌else◌};
ghost use Rattle.vhdl_names_scope.specs.Declarations.{own};
ghost use Rattle.vhdl_names_scope.specs.Pairs.{BothSeen};

use crate::region::Declared;
use std::alloc::{AllocError, Global};
use vhdl_names_overloads::{Overloads, Pair};

/// Names that declarations hide which are no literals.
pub(crate) fn hidden(alloc: Global, pair: Pair, hides_left: bool, hides_right: bool) -> Pair
    ensures { result ≡ record { left = if hides_left then [] else pair.left; right = if hides_right then [] else pair.right } }
{
    let pair = if hides_left {
        pair.hide_left(alloc)
    } else {
        pair
    };
    if hides_right {
        pair.hide_right(alloc)
    } else {
        pair
    }
}

// What the region of a loop declares a name to be.
fn own_of(alloc: Global, parameter: &Declared, name: &str) -> Result<Overloads, AllocError>
    ensures { IfOk result (λ entries. entries ≡ own name.now (parameter.now ∷ [])) }
{
    let mut entries = Overloads::new(alloc);
    if name == parameter.name() {
        entries.push(parameter.entry())?;
    }
    Ok(entries)
}

/// Two names in a loop's region, where they are seen so around it.
pub(crate) fn pair_in_loop(
    alloc: Global,
    parameter: &Declared,
    left: &str,
    right: &str,
    around: Pair,
) -> Result<Pair, AllocError>
    ensures { IfOk result (λ pair. BothSeen left.now right.now ((parameter.now ∷ []) ∷ []) around pair) }
{
    let own_left = own_of(alloc, parameter, left)?;
    let own_right = own_of(alloc, parameter, right)?;
    let pair = around.within(&own_left, &own_right, own_left.shared(&own_right))?;
    Ok(hidden(alloc, pair, own_left.has_other(), own_right.has_other()))
}
