ghost use Rattle.std.specs.Prelude.{◌≡◌, ◌++◌, OnOk, IfOk, decimal};
ghost use Rattle.sim_command.specs.Faults.{read_fault, session_fault};
ghost use Rattle.sim_command.specs.Outcome as outcome;

use crate::Status;
use itoa::Buffer;
use sim_host::ReadError;
use sim_memory::NoMemory;
use sim_session::{DesignFault, SessionFault};
use std::alloc::Global;
use vhdl_units::Fault;

/// Why a command wasn't done.
#[derive(Clone, Copy, Debug, PartialEq, Eq)]
pub enum CommandFault {
    /// The words are no command.
    Usage,
    /// The design file has more than 1,048,576 bytes.
    TooLong,
    /// The text of the design file can't be run.
    Design(DesignFault),
    /// The host had a fault.
    Host,
    /// Memory that was asked for could not be had.
    NoMemory,
}

pub(crate) fn fault_of_read(error: ReadError) -> CommandFault
    ensures { result ≡ read_fault error }
{
    match error {
        ReadError::Host => CommandFault::Host,
        ReadError::TooLong => CommandFault::TooLong,
        ReadError::NoMemory => CommandFault::NoMemory,
    }
}

pub(crate) fn fault_of_session(fault: SessionFault) -> CommandFault
    ensures { result ≡ session_fault fault }
{
    match fault {
        SessionFault::Design(fault) => CommandFault::Design(fault),
        SessionFault::Host => CommandFault::Host,
        SessionFault::NoMemory => CommandFault::NoMemory,
    }
}

fn put(text: &mut Vec<u8>, bytes: &[u8]) -> Result<(), NoMemory>
    ensures { OnOk result (text.new.items ≡ text.old.items ++ bytes.now) }
{
    text.extend_from_slice(bytes)?;
    Ok(())
}

fn put_number(text: &mut Vec<u8>, number: u64) -> Result<(), NoMemory>
    ensures { OnOk result (text.new.items ≡ text.old.items ++ decimal number) }
{
    let mut buffer = Buffer::new();
    put(text, buffer.format(number).as_bytes())
}

fn put_numbered(text: &mut Vec<u8>, word: &[u8], number: u64) -> Result<(), NoMemory>
    ensures { OnOk result (text.new.items ≡ text.old.items ++ (word.now ++ decimal number)) }
{
    put(text, word)?;
    put_number(text, number)
}

fn put_rule(text: &mut Vec<u8>, fault: Fault) -> Result<(), NoMemory>
    ensures { OnOk result (text.new.items ≡ text.old.items ++ outcome.rule_words fault) }
{
    put_numbered(text, b"Static ", u64::from(fault.rule.number()))?;
    put_numbered(text, b" ", u64::from(fault.place))
}

fn put_words(text: &mut Vec<u8>, fault: DesignFault) -> Result<(), NoMemory>
    ensures { OnOk result (text.new.items ≡ text.old.items ++ outcome.words_of fault) }
{
    match fault {
        DesignFault::BadByte { place } => put_numbered(text, b"BadByte ", u64::from(place)),
        DesignFault::BadLiteral { place } => put_numbered(text, b"BadLiteral ", u64::from(place)),
        DesignFault::Syntax { token } => put_numbered(text, b"Syntax ", token as u64),
        DesignFault::Nesting { token } => put_numbered(text, b"Nesting ", token as u64),
        DesignFault::Static(fault) => put_rule(text, fault),
        DesignFault::NotBuilt => put(text, b"NotBuilt"),
    }
}

// The line that is said of a text that can't be run.
pub(crate) fn refusal_line(alloc: Global, fault: DesignFault) -> Result<Vec<u8>, NoMemory>
    ensures { IfOk result (λ line. line.items ≡ outcome.line_of (CommandFault.Design fault)) }
{
    let mut line = Vec::new(alloc);
    put(&mut line, b"vhpisim: design: ")?;
    put_words(&mut line, fault)?;
    put(&mut line, b"\n")?;
    Ok(line)
}

// The status where memory ran out while the line was written.
pub(crate) fn without_memory(status: Status) -> Status
    ensures { result ≡ outcome.without_memory status }
{
    match status {
        Status::Done => Status::Done,
        Status::Refused | Status::Usage | Status::NoMemory => Status::NoMemory,
        Status::HostFault => Status::HostFault,
    }
}
