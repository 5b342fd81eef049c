//! The lexis of a VHDL design file: its bytes as a list of tokens.
#![tactic(auto)]

mod bytes;
mod meaning;
mod reading;
mod reserved;
mod scan;
mod token;

pub use meaning::{bits, character, identifier, integer, one_value, span, string};
pub use reading::{TEXT_LIMIT, one_reading, tokens};
pub use token::{Delimiter, Kind, Reserved, Token, TokenError};
