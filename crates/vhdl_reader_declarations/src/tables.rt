//! What the next token is to the readers of declarations.

ghost use Rattle.std.specs.Prelude.{◌≡◌};
ghost use Rattle.vhdl_tree.specs.Declarations as grammar;
ghost use Rattle.vhdl_reader_declarations.specs.Reading as spec;

use vhdl_tokens::{Kind, Reserved};
use vhdl_tree::Mode;

pub fn mode_of(kind: Option<Kind>) -> Option<Mode>
    ensures { result ≡ grammar.mode_of kind }
{
    match kind {
        Some(Kind::Word(Reserved::In)) => Some(Mode::In),
        Some(Kind::Word(Reserved::Out)) => Some(Mode::Out),
        Some(Kind::Word(Reserved::Inout)) => Some(Mode::Inout),
        _ => None,
    }
}

pub fn is_character(kind: Option<Kind>) -> bool
    ensures { result ≡ spec.is_character kind }
{
    match kind {
        Some(Kind::Char) => true,
        _ => false,
    }
}

/// Whether a declaration of an architecture begins here.
pub fn begins_declaration(kind: Option<Kind>) -> bool
    ensures { result ≡ spec.begins_declaration kind }
{
    match kind {
        Some(Kind::Word(Reserved::Type_)) => true,
        Some(Kind::Word(Reserved::Subtype)) => true,
        Some(Kind::Word(Reserved::Constant)) => true,
        Some(Kind::Word(Reserved::Signal)) => true,
        Some(Kind::Word(Reserved::Attribute)) => true,
        _ => false,
    }
}

/// Whether a declaration of a process begins here.
pub fn begins_process_declaration(kind: Option<Kind>) -> bool
    ensures { result ≡ spec.begins_process_declaration kind }
{
    match kind {
        Some(Kind::Word(Reserved::Type_)) => true,
        Some(Kind::Word(Reserved::Subtype)) => true,
        Some(Kind::Word(Reserved::Constant)) => true,
        Some(Kind::Word(Reserved::Variable)) => true,
        _ => false,
    }
}
