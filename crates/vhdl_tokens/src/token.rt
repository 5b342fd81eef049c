//! What a text is read into.

pub use crate::reserved::Reserved;
use std::alloc::{AllocError, AllocFailed};
use std::error::Error;
use std::fmt;

/// A delimiter (IEEE Std 1076-2008, 15.3).
#[derive(Clone, Copy, Debug, PartialEq, Eq)]
pub enum Delimiter {
    /// `(`
    LeftParen,
    /// `)`
    RightParen,
    /// `,`
    Comma,
    /// `;`
    Semicolon,
    /// `:`
    Colon,
    /// `.`
    Dot,
    /// `&`
    Ampersand,
    /// `'`
    Tick,
    /// `|`
    Bar,
    /// `+`
    Plus,
    /// `-`
    Minus,
    /// `*`
    Star,
    /// `/`
    Slash,
    /// `**`
    DoubleStar,
    /// `=>`
    Arrow,
    /// `:=`
    Assign,
    /// `<=`
    LessEqual,
    /// `>=`
    GreaterEqual,
    /// `<`
    Less,
    /// `>`
    Greater,
    /// `=`
    Equal,
    /// `/=`
    NotEqual,
}

/// What a token is.
#[derive(Clone, Copy, Debug, PartialEq, Eq)]
pub enum Kind {
    /// An identifier that is no reserved word.
    Identifier,
    /// A reserved word.
    Word(Reserved),
    /// A decimal integer, of at most 2^128 - 1.
    Int,
    /// A character literal.
    Char,
    /// A string literal.
    Text,
    /// A bit string literal.
    Bits,
    /// A delimiter.
    Delimiter(Delimiter),
}

/// A token: what it is, and where it stands. Its text is the bytes from `start` up to `end`.
#[derive(Clone, Copy, Debug, PartialEq, Eq)]
pub struct Token {
    /// What it is.
    pub kind: Kind,
    /// The place of its first byte, from 0.
    pub start: u32,
    /// The place behind its last byte.
    pub end: u32,
    /// Its line, from 1: one more than the line feeds before it.
    pub line: u32,
}

/// Why a text has no list of tokens: its first fault, or want of memory.
#[derive(Clone, Copy, Debug, PartialEq, Eq)]
pub enum TokenError {
    /// The byte at this place begins no token.
    BadByte {
        /// The place of the byte, from 0.
        place: u32,
    },
    /// The token or comment that begins at this place isn't ended, or isn't well formed.
    BadLiteral {
        /// The place of its first byte, from 0.
        place: u32,
    },
    /// Memory ran out.
    NoMemory,
}

impl fmt::Display for TokenError {
    ghost use Rattle.std.specs.Prelude.{Some};
    ghost use Rattle.vhdl_tokens.specs.Message.{message};

    ghost output = { λ error. Some (message error) };

    fn fmt<W: fmt::Write>(&self, f: &mut fmt::Formatter<W>) -> fmt::Result {
        match self {
            TokenError::BadByte { place } => write!(f, "no token begins with the byte at {place}"),
            TokenError::BadLiteral { place } => write!(f, "the token at {place} is malformed"),
            TokenError::NoMemory => write!(f, "out of memory"),
        }
    }
}

impl Error for TokenError {}

impl From<AllocError> for TokenError {
    ghost use Rattle.std.specs.Prelude.{◌≡◌};
    ghost use Rattle.vhdl_tokens.specs.declared.token.TokenError.TheVariants.{NoMemory};

    ghost from_gives = { λ _ e. e ≡ NoMemory };

    fn from(_e: AllocError) -> TokenError {
        TokenError::NoMemory
    }
}

impl<T: Drop> From<AllocFailed<T>> for TokenError {
    ghost use Rattle.std.specs.Prelude.{◌≡◌};
    ghost use Rattle.vhdl_tokens.specs.declared.token.TokenError.TheVariants.{NoMemory};

    ghost from_gives = { λ _ e. e ≡ NoMemory };

    fn from(_e: AllocFailed<T>) -> TokenError {
        TokenError::NoMemory
    }
}
