//! What the next token is to the readers of statements.

ghost use Rattle.std.specs.Prelude.{◌≡◌};
ghost use Rattle.vhdl_reader_statements.specs.Reading as spec;

use vhdl_tokens::{Kind, Reserved};

/// What a statement without its label may begin with.
#[derive(Clone, Copy)]
pub enum Opening {
    /// An identifier: the target of an assignment.
    Named,
    Wait,
    Assert,
    Report,
    If,
    Case,
    /// `while`, `for` or `loop`.
    Loop,
    Next,
    Exit,
    Null,
    Other,
}

pub fn opening_of(kind: Option<Kind>) -> Opening
    ensures { result ≡ spec.opening_of kind }
{
    match kind {
        Some(Kind::Identifier) => Opening::Named,
        Some(Kind::Word(Reserved::Wait)) => Opening::Wait,
        Some(Kind::Word(Reserved::Assert)) => Opening::Assert,
        Some(Kind::Word(Reserved::Report)) => Opening::Report,
        Some(Kind::Word(Reserved::If)) => Opening::If,
        Some(Kind::Word(Reserved::Case)) => Opening::Case,
        Some(Kind::Word(Reserved::While)) => Opening::Loop,
        Some(Kind::Word(Reserved::For)) => Opening::Loop,
        Some(Kind::Word(Reserved::Loop)) => Opening::Loop,
        Some(Kind::Word(Reserved::Next)) => Opening::Next,
        Some(Kind::Word(Reserved::Exit)) => Opening::Exit,
        Some(Kind::Word(Reserved::Null)) => Opening::Null,
        _ => Opening::Other,
    }
}

fn is_opening(opening: Opening) -> bool
    ensures { result ≡ spec.is_opening opening }
{
    match opening {
        Opening::Other => false,
        _ => true,
    }
}

pub fn begins_statement(kind: Option<Kind>) -> bool
    ensures { result ≡ spec.begins_statement kind }
{
    is_opening(opening_of(kind))
}

pub fn is_identifier(kind: Option<Kind>) -> bool
    ensures { result ≡ spec.is_identifier kind }
{
    match kind {
        Some(Kind::Identifier) => true,
        _ => false,
    }
}

pub fn begins_arm(kind: Option<Kind>) -> bool
    ensures { result ≡ spec.begins_arm kind }
{
    match kind {
        Some(Kind::Word(Reserved::When)) => true,
        _ => false,
    }
}
