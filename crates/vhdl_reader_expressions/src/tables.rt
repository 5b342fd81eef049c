//! What the next token is to the readers of expressions.

ghost use Rattle.std.specs.Prelude.{◌≡◌};
ghost use Rattle.vhdl_tree.specs.Expressions as grammar;
ghost use Rattle.vhdl_reader_expressions.specs.Reading as spec;

use vhdl_tokens::{Delimiter, Kind, Reserved};
use vhdl_tree::{Direction, Operator, Unary};

pub fn chaining(kind: Option<Kind>) -> Option<Operator>
    ensures { result ≡ grammar.chaining kind }
{
    match kind {
        Some(Kind::Word(Reserved::And)) => Some(Operator::And),
        Some(Kind::Word(Reserved::Or)) => Some(Operator::Or),
        Some(Kind::Word(Reserved::Xor)) => Some(Operator::Xor),
        Some(Kind::Word(Reserved::Xnor)) => Some(Operator::Xnor),
        _ => None,
    }
}

pub fn standing_once(kind: Option<Kind>) -> Option<Operator>
    ensures { result ≡ grammar.standing_once kind }
{
    match kind {
        Some(Kind::Word(Reserved::Nand)) => Some(Operator::Nand),
        Some(Kind::Word(Reserved::Nor)) => Some(Operator::Nor),
        _ => None,
    }
}

pub fn again(operator: Operator, kind: Option<Kind>) -> Option<Operator>
    ensures { result ≡ grammar.again operator kind }
{
    match chaining(kind) {
        None => None,
        Some(other) => {
            if other.is(operator) {
                Some(other)
            } else {
                None
            }
        }
    }
}

pub fn relational(kind: Option<Kind>) -> Option<Operator>
    ensures { result ≡ grammar.relational kind }
{
    match kind {
        Some(Kind::Delimiter(Delimiter::Equal)) => Some(Operator::Equal),
        Some(Kind::Delimiter(Delimiter::NotEqual)) => Some(Operator::NotEqual),
        Some(Kind::Delimiter(Delimiter::Less)) => Some(Operator::Less),
        Some(Kind::Delimiter(Delimiter::LessEqual)) => Some(Operator::LessEqual),
        Some(Kind::Delimiter(Delimiter::Greater)) => Some(Operator::Greater),
        Some(Kind::Delimiter(Delimiter::GreaterEqual)) => Some(Operator::GreaterEqual),
        _ => None,
    }
}

pub fn sign(kind: Option<Kind>) -> Option<Unary>
    ensures { result ≡ grammar.sign kind }
{
    match kind {
        Some(Kind::Delimiter(Delimiter::Plus)) => Some(Unary::Plus),
        Some(Kind::Delimiter(Delimiter::Minus)) => Some(Unary::Minus),
        _ => None,
    }
}

pub fn adding(kind: Option<Kind>) -> Option<Operator>
    ensures { result ≡ grammar.adding kind }
{
    match kind {
        Some(Kind::Delimiter(Delimiter::Plus)) => Some(Operator::Add),
        Some(Kind::Delimiter(Delimiter::Minus)) => Some(Operator::Subtract),
        Some(Kind::Delimiter(Delimiter::Ampersand)) => Some(Operator::Concatenate),
        _ => None,
    }
}

pub fn multiplying(kind: Option<Kind>) -> Option<Operator>
    ensures { result ≡ grammar.multiplying kind }
{
    match kind {
        Some(Kind::Delimiter(Delimiter::Star)) => Some(Operator::Multiply),
        Some(Kind::Delimiter(Delimiter::Slash)) => Some(Operator::Divide),
        Some(Kind::Word(Reserved::Mod)) => Some(Operator::Mod),
        Some(Kind::Word(Reserved::Rem)) => Some(Operator::Rem),
        _ => None,
    }
}

pub fn prefix(kind: Option<Kind>) -> Option<Unary>
    ensures { result ≡ grammar.prefix kind }
{
    match kind {
        Some(Kind::Word(Reserved::Abs)) => Some(Unary::Abs),
        Some(Kind::Word(Reserved::Not)) => Some(Unary::Not),
        _ => None,
    }
}

pub fn direction_of(kind: Option<Kind>) -> Option<Direction>
    ensures { result ≡ grammar.direction_of kind }
{
    match kind {
        Some(Kind::Word(Reserved::To)) => Some(Direction::To),
        Some(Kind::Word(Reserved::Downto)) => Some(Direction::Downto),
        _ => None,
    }
}

/// What an operand may begin with.
#[derive(Clone, Copy)]
pub enum Start {
    Named,
    Numbered,
    Spelled,
    Bracketed,
    Other,
}

pub fn start_of(kind: Option<Kind>) -> Start
    ensures { result ≡ spec.start_of kind }
{
    match kind {
        Some(Kind::Identifier) => Start::Named,
        Some(Kind::Int) => Start::Numbered,
        Some(Kind::Char) => Start::Spelled,
        Some(Kind::Text) => Start::Spelled,
        Some(Kind::Bits) => Start::Spelled,
        Some(Kind::Delimiter(Delimiter::LeftParen)) => Start::Bracketed,
        _ => Start::Other,
    }
}

pub fn is_others(kind: Option<Kind>) -> bool
    ensures { result ≡ spec.is_others kind }
{
    match kind {
        Some(Kind::Word(Reserved::Others)) => true,
        _ => false,
    }
}

pub fn is_range_word(kind: Option<Kind>) -> bool
    ensures { result ≡ spec.is_range_word kind }
{
    match kind {
        Some(Kind::Word(Reserved::Range)) => true,
        _ => false,
    }
}

pub fn begins_part(kind: Option<Kind>) -> bool
    ensures { result ≡ spec.begins_part kind }
{
    match kind {
        Some(Kind::Delimiter(Delimiter::LeftParen)) => true,
        Some(Kind::Delimiter(Delimiter::Tick)) => true,
        _ => false,
    }
}

pub fn ends_choice(kind: Option<Kind>) -> bool
    ensures { result ≡ spec.ends_choice kind }
{
    match kind {
        Some(Kind::Delimiter(Delimiter::Bar)) => true,
        Some(Kind::Delimiter(Delimiter::Arrow)) => true,
        _ => false,
    }
}

pub fn begins_name(kind: Option<Kind>) -> bool
    ensures { result ≡ spec.begins_name kind }
{
    match kind {
        Some(Kind::Identifier) => true,
        _ => false,
    }
}
