//! Names in the place of a discrete range (5.2.1).

ghost use Rattle.std.specs.Prelude.{◌≡◌, IfOk};
ghost use Rattle.vhdl_names_typing.specs.Ranges as spec;

use crate::changes::wrong_kind;
use crate::told::{Denotes, NameTold};
use std::alloc::{AllocError, Global};

/// What a name tells in the place of a discrete range, where only the range of an array is allowed.
#[tactic(auto, unfolding(crate::specs::Ranges::range_name, crate::specs::Ranges::range_as))]
pub fn range_name(alloc: Global, name: NameTold) -> Result<NameTold, AllocError>
    ensures { IfOk result (λ told. told ≡ spec.range_name name) }
{
    match name.denotes {
        Denotes::Range | Denotes::Unknown => Ok(name),
        _ => wrong_kind(alloc, name),
    }
}
