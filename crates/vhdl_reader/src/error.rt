//! Why a list of tokens is refused.

use std::error::Error;
use std::fmt;

/// Why a list of tokens is refused. Tokens are counted from 0.
#[derive(Clone, Copy, Debug, PartialEq, Eq)]
pub enum SyntaxError {
    /// The first token with which no design file goes on; or the number of tokens, where they end too early.
    Syntax {
        /// The number of the token.
        token: usize,
    },
    /// The first token at which brackets and statements nest more than 64 deep.
    Nesting {
        /// The number of the token.
        token: usize,
    },
    /// Memory ran out.
    NoMemory,
}

impl fmt::Display for SyntaxError {
    fn fmt<W: fmt::Write>(&self, f: &mut fmt::Formatter<W>) -> fmt::Result {
        match self {
            SyntaxError::Syntax { token } => write!(f, "no design file goes on with token {token}"),
            SyntaxError::Nesting { token } => write!(f, "token {token} nests too deep"),
            SyntaxError::NoMemory => write!(f, "out of memory"),
        }
    }
}

impl Error for SyntaxError {}
