//! A cursor over the tokens of a text with the steps that the readers of a grammar are made of, and the readers of
//! expressions and names (IEEE Std 1076-2008, clauses 8 and 9).
#![tactic(auto)]

mod aggregate;
mod cursor;
mod expression;
mod grammar;
mod kinds;
mod name;
mod operand;
mod ranges;
mod readers;
mod stop;
mod tables;

pub use cursor::Tokens;
pub use kinds::same;
pub use readers::Readers;
pub use stop::Stop;
