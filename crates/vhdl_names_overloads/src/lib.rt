//! What a name denotes, and the types that an expression can have, where an enumeration literal may stand in many
//! types (IEEE Std 1076-2008, clauses 12.3 and 12.5).
//!
//! A contract sees a list each time. The declarations of a name are shared by all its uses, and a literal is looked
//! up among them by its type, so that a use of it costs no more where more types have it.
#![tactic(auto)]

mod blocks;
mod literals;
mod meanings;
mod overloads;
mod pair;
mod shared;
mod table;
mod types;

pub use meanings::{Meanings, met};
pub use overloads::Overloads;
pub use pair::Pair;
pub use shared::Shared;
pub use types::Types;
