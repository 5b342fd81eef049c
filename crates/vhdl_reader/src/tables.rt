//! What the next token is to the readers of design units.

ghost use Rattle.std.specs.Prelude.{◌≡◌};
ghost use Rattle.vhdl_reader.specs.Reading as spec;

use vhdl_tokens::{Kind, Reserved};

pub fn is_identifier(kind: Option<Kind>) -> bool
    ensures { result ≡ spec.is_identifier kind }
{
    match kind {
        Some(Kind::Identifier) => true,
        _ => false,
    }
}

pub fn is_open(kind: Option<Kind>) -> bool
    ensures { result ≡ spec.is_open kind }
{
    match kind {
        Some(Kind::Word(Reserved::Open)) => true,
        _ => false,
    }
}

pub fn is_all(kind: Option<Kind>) -> bool
    ensures { result ≡ spec.is_all kind }
{
    match kind {
        Some(Kind::Word(Reserved::All)) => true,
        _ => false,
    }
}

pub fn is_entity(kind: Option<Kind>) -> bool
    ensures { result ≡ spec.is_entity kind }
{
    match kind {
        Some(Kind::Word(Reserved::Entity)) => true,
        _ => false,
    }
}

/// Whether a concurrent statement begins here.
pub fn begins_concurrent(kind: Option<Kind>) -> bool
    ensures { result ≡ spec.begins_concurrent kind }
{
    match kind {
        Some(Kind::Identifier) => true,
        Some(Kind::Word(Reserved::Postponed)) => true,
        Some(Kind::Word(Reserved::Process)) => true,
        _ => false,
    }
}

/// Whether an item of a context clause begins here.
pub fn begins_context(kind: Option<Kind>) -> bool
    ensures { result ≡ spec.begins_context kind }
{
    match kind {
        Some(Kind::Word(Reserved::Library)) => true,
        Some(Kind::Word(Reserved::Use)) => true,
        _ => false,
    }
}

/// Whether a design unit begins here.
pub fn begins_unit(kind: Option<Kind>) -> bool
    ensures { result ≡ spec.begins_unit kind }
{
    match kind {
        Some(Kind::Word(Reserved::Library)) => true,
        Some(Kind::Word(Reserved::Use)) => true,
        Some(Kind::Word(Reserved::Entity)) => true,
        Some(Kind::Word(Reserved::Architecture)) => true,
        _ => false,
    }
}
