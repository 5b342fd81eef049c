ghost use Rattle.std.specs.Prelude.{◌≡◌, map};
ghost use Rattle.sim_command.specs.Words.{command};
ghost use Rattle.sim_command.specs.Outcome.{RunsDesign, Obeys, CauseOf, IsDone, IsRefusal, IsUsage, IsNoMemory, IsHostFault, AsksOnly, IsDoneWhereRun, IsRefusedWhereNot, YieldsToReading, Finishes, Settles, Outcome};
ghost use Rattle.sim_command.specs.Outcome as outcome;

use crate::fault::{fault_of_read, fault_of_session, refusal_line, without_memory};
use crate::words::{Command, read_command};
use crate::{CommandFault, Status};
use sim_host::{Channel, Host, HostError, Name, read_all, write_all};
use sim_session::{DesignFault, Job, run_session};
use std::alloc::Global;

/// The most bytes that a design file may have.
const MOST_BYTES: usize = 1_048_576;

// Runs the design of a file.
fn run_design<H: Host>(
    alloc: Global,
    design: &Name,
    limit: u32,
    host: &mut H,
) -> Result<(), CommandFault>
    ensures ran { RunsDesign result design.now limit (H.seen host.old) (H.seen host.new) }
    ensures cause { CauseOf result (H.faults host.old) (H.faults host.new) }
{
    let text = match read_all(alloc, host, design, MOST_BYTES) {
        Ok(text) => text,
        Err(error) => return Err(fault_of_read(error)),
    };
    match run_session(alloc, Job { text, limit }, host) {
        Ok(_) => Ok(()),
        Err(fault) => Err(fault_of_session(fault)),
    }
}

// Does what the words ask for; nothing is said yet.
fn obey<H: Host>(alloc: Global, words: &[Name], host: &mut H) -> Result<(), CommandFault>
    ensures obeyed { Obeys (command words.now) result (H.seen host.old) (H.seen host.new) }
    ensures cause { CauseOf result (H.faults host.old) (H.faults host.new) }
{
    match read_command(words) {
        Some(Command::Run { design, limit }) => run_design(alloc, design, limit, host),
        None => Err(CommandFault::Usage),
    }
}

// Says a line on Err, and answers the status that goes with it.
fn finish<H: Host>(host: &mut H, line: &[u8], status: Status) -> Status
    ensures { Finishes line.now status result (H.seen host.old) (H.seen host.new) (H.faults host.old) (H.faults host.new) }
{
    match write_all(host, Channel::Err, line) {
        Ok(()) => status,
        Err(HostError::Fault) => status,
        Err(HostError::NoMemory) => without_memory(status),
    }
}

// Says why the text of a design file can't be run.
fn refuse<H: Host>(alloc: Global, host: &mut H, fault: DesignFault) -> Status
    ensures { Finishes (outcome.line_of (CommandFault.Design fault)) Status.Refused result (H.seen host.old) (H.seen host.new) (H.faults host.old) (H.faults host.new) }
{
    match refusal_line(alloc, fault) {
        Ok(line) => finish(host, line.as_slice(), Status::Refused),
        Err(_) => Status::NoMemory,
    }
}

// Says why a command wasn't done.
fn say<H: Host>(alloc: Global, host: &mut H, fault: CommandFault) -> Status
    ensures { Finishes (outcome.line_of fault) (outcome.status_of fault) result (H.seen host.old) (H.seen host.new) (H.faults host.old) (H.faults host.new) }
{
    match fault {
        CommandFault::Usage => finish(host, b"vhpisim: usage\n", Status::Usage),
        CommandFault::TooLong => finish(host, b"vhpisim: design: TooLong\n", Status::Refused),
        CommandFault::Design(fault) => refuse(alloc, host, fault),
        CommandFault::Host => finish(host, b"vhpisim: host fault\n", Status::HostFault),
        CommandFault::NoMemory => finish(host, b"vhpisim: no memory\n", Status::NoMemory),
    }
}

// Says what a command came to.
fn settle<H: Host>(alloc: Global, host: &mut H, outcome: Result<(), CommandFault>) -> Status
    ensures { Settles outcome result (H.seen host.old) (H.seen host.new) (H.faults host.old) (H.faults host.new) }
{
    match outcome {
        Ok(()) => Status::Done,
        Err(fault) => say(alloc, host, fault),
    }
}

fn obey_and_settle<H: Host>(alloc: Global, words: &[Name], host: &mut H) -> Status
    ensures { Outcome result (command words.now) (H.seen host.old) (H.seen host.new) (H.faults host.old) (H.faults host.new) }
{
    let outcome = obey(alloc, words, host);
    settle(alloc, host, outcome)
}

/// Does what the words after the program's name ask for, over a host, and answers the status that
/// the program ends with. The words are `run`, the name of a design file, and one to ten digits
/// whose number is from 1 to 10,000,000: the number of the cycle with which the run ends at the
/// latest. All others are usage. The journal goes to Out, and one line to Err where the status
/// isn't 0; a fault, or want of memory, while the line is written leaves a front of it, which may be
/// empty. Such a fault changes no status. Such want of memory makes the status 3 where the line is
/// that of usage or of a refusal. What is said of files and channels holds where the host tells them.
pub fn vhpisim_main<H: Host>(alloc: Global, words: &[Name], host: &mut H) -> Status
    // What each status says.
    ensures done { result ≡ Status.Done → IsDone (command words.now) (H.seen host.old) (H.seen host.new) (H.faults host.old) (H.faults host.new) }
    ensures refused { result ≡ Status.Refused → IsRefusal (command words.now) (H.seen host.old) (H.seen host.new) (H.faults host.old) (H.faults host.new) }
    ensures usage { result ≡ Status.Usage → IsUsage (command words.now) (H.seen host.old) (H.seen host.new) (H.faults host.old) (H.faults host.new) }
    ensures no_memory { result ≡ Status.NoMemory → IsNoMemory (command words.now) (H.seen host.old) (H.seen host.new) (H.faults host.old) (H.faults host.new) }
    ensures host_fault { result ≡ Status.HostFault → IsHostFault (command words.now) (H.seen host.old) (H.seen host.new) (H.faults host.old) (H.faults host.new) }
    // Which status comes, where memory doesn't run out.
    ensures run_is_done { IsDoneWhereRun (command words.now) result (H.seen host.old) (H.faults host.old) (H.faults host.new) }
    ensures refusal_is_said { IsRefusedWhereNot (command words.now) result (H.seen host.old) (H.faults host.old) (H.faults host.new) }
    // A fault yields to a refusal, unless it came in the reading.
    ensures refusal_yields { YieldsToReading (command words.now) result (H.seen host.old) (H.seen host.new) }
    // Whatever the status is.
    ensures asked { AsksOnly (command words.now) (H.seen host.old) (H.seen host.new) }
{
    obey_and_settle(alloc, words, host)
}
