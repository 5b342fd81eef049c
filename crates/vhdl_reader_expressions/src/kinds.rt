//! When two kinds of tokens are the same.

ghost use Rattle.std.specs.Prelude.{◌≡◌};
ghost use Rattle.vhdl_reader_expressions.specs.Kinds as spec;

use vhdl_tokens::{Delimiter, Kind, Reserved};

#[tactic(auto, unfolding(crate::specs::Kinds::same_word))]
fn same_word(a: Reserved, b: Reserved) -> bool
    ensures { result ≡ spec.same_word a b }
{
    a == b
}

#[tactic(auto, unfolding(crate::specs::Kinds::same_delimiter))]
fn same_delimiter(a: Delimiter, b: Delimiter) -> bool
    ensures { result ≡ spec.same_delimiter a b }
{
    a == b
}

/// Whether two kinds are the same.
#[tactic(auto, unfolding(crate::specs::Kinds::same))]
pub fn same(a: Kind, b: Kind) -> bool
    ensures { result ≡ spec.same a b }
{
    match (a, b) {
        (Kind::Identifier, Kind::Identifier) => true,
        (Kind::Word(x), Kind::Word(y)) => same_word(x, y),
        (Kind::Int, Kind::Int) => true,
        (Kind::Char, Kind::Char) => true,
        (Kind::Text, Kind::Text) => true,
        (Kind::Bits, Kind::Bits) => true,
        (Kind::Delimiter(x), Kind::Delimiter(y)) => same_delimiter(x, y),
        _ => false,
    }
}
