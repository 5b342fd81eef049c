//! What a name denotes where it stands.

ghost use Rattle.std.specs.Prelude.{◌≡◌, IfOk};
ghost use Rattle.vhdl_names_typing.specs.Scope as spec;

use std::alloc::{AllocError, Global};
use vhdl_names_overloads::Meanings;
use vhdl_names_scope::{Regions, word};
use vhdl_tokens::Token;

/// What a token of a text denotes as a name in the open regions (12.3).
#[tactic(auto, unfolding(crate::specs::Scope::look))]
pub fn look(
    alloc: Global,
    text: &[u8],
    regions: &Regions,
    token: &Token,
) -> Result<Meanings, AllocError>
    ensures { IfOk result (λ entries. entries ≡ spec.look text.now regions.now token.now) }
{
    let name = word(alloc, text, token)?;
    regions.meanings(alloc, name.as_str())
}
