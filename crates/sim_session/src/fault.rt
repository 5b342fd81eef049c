ghost use Rattle.std.specs.Prelude.{◌≡◌};
ghost use Rattle.sim_session.specs.Faults.{fault_of_host, fault_of_tokens, fault_of_syntax};
ghost use Rattle.sim_session.specs.declared.fault.SessionFault.TheVariants as faults;

use sim_host::HostError;
use sim_memory::NoMemory;
use std::error::Error;
use std::fmt;
use vhdl_reader::SyntaxError;
use vhdl_tokens::TokenError;
use vhdl_units::Fault;

/// Why the text of a design file can't be run.
#[derive(Clone, Copy, Debug, PartialEq, Eq)]
pub enum DesignFault {
    /// No token begins with the byte at this place.
    BadByte {
        /// The place of the byte, from 0.
        place: u32,
    },
    /// The token or comment that begins at this place isn't ended, or isn't well formed.
    BadLiteral {
        /// The place of its first byte, from 0.
        place: u32,
    },
    /// The first token with which no design file goes on; or the number of tokens, where they end too early.
    Syntax {
        /// The number of the token, from 0.
        token: usize,
    },
    /// The first token at which brackets and statements nest more than 64 deep, where no syntax fault stands there or before.
    Nesting {
        /// The number of the token, from 0.
        token: usize,
    },
    /// The design breaks a static rule: the one that is broken first in the text, and its place.
    Static(Fault),
    /// The text is of the language and breaks no static rule, and isn't of a form that can be run so far.
    NotBuilt,
}

/// Why a session didn't come to the end of a run.
#[derive(Clone, Copy, Debug, PartialEq, Eq)]
pub enum SessionFault {
    /// The design's text can't be run.
    Design(DesignFault),
    /// The host answered a fault.
    Host,
    /// Memory that was asked for could not be had.
    NoMemory,
}

impl fmt::Display for DesignFault {
    fn fmt<W: fmt::Write>(&self, f: &mut fmt::Formatter<W>) -> fmt::Result {
        match self {
            DesignFault::BadByte { place } => write!(f, "no token begins with the byte at {place}"),
            DesignFault::BadLiteral { place } => write!(f, "the token at {place} is malformed"),
            DesignFault::Syntax { token } => write!(f, "no design file goes on with token {token}"),
            DesignFault::Nesting { token } => write!(f, "token {token} nests too deep"),
            DesignFault::Static(fault) => {
                write!(
                    f,
                    "rule {} is broken at {}",
                    fault.rule.number(),
                    fault.place
                )
            }
            DesignFault::NotBuilt => write!(f, "the design can't be run so far"),
        }
    }
}

impl fmt::Display for SessionFault {
    fn fmt<W: fmt::Write>(&self, f: &mut fmt::Formatter<W>) -> fmt::Result {
        match self {
            SessionFault::Design(fault) => write!(f, "{fault}"),
            SessionFault::Host => write!(f, "host fault"),
            SessionFault::NoMemory => write!(f, "no memory"),
        }
    }
}

impl Error for SessionFault {}

impl From<NoMemory> for SessionFault {
    ghost from_gives = { λ _ f. f ≡ faults.NoMemory };

    fn from(_error: NoMemory) -> SessionFault {
        SessionFault::NoMemory
    }
}

impl From<HostError> for SessionFault {
    ghost from_gives = { λ e f. f ≡ fault_of_host e };

    fn from(error: HostError) -> SessionFault {
        match error {
            HostError::Fault => SessionFault::Host,
            HostError::NoMemory => SessionFault::NoMemory,
        }
    }
}

impl From<TokenError> for SessionFault {
    ghost from_gives = { λ e f. f ≡ fault_of_tokens e };

    fn from(error: TokenError) -> SessionFault {
        match error {
            TokenError::BadByte { place } => SessionFault::Design(DesignFault::BadByte { place }),
            TokenError::BadLiteral { place } => {
                SessionFault::Design(DesignFault::BadLiteral { place })
            }
            TokenError::NoMemory => SessionFault::NoMemory,
        }
    }
}

impl From<SyntaxError> for SessionFault {
    ghost from_gives = { λ e f. f ≡ fault_of_syntax e };

    fn from(error: SyntaxError) -> SessionFault {
        match error {
            SyntaxError::Syntax { token } => SessionFault::Design(DesignFault::Syntax { token }),
            SyntaxError::Nesting { token } => SessionFault::Design(DesignFault::Nesting { token }),
            SyntaxError::NoMemory => SessionFault::NoMemory,
        }
    }
}
