ghost use Rattle.std.specs.Prelude.{◌≡◌, ◌≤◌, [], ◌++◌, IfOk, length};
ghost use Rattle.sim_journal.specs.Print.{Print};
ghost use Rattle.vhpi_kernel.specs.Simulation.{first_simulation};
ghost use Rattle.sim_session.specs.Session.{Runs, HasSessionCause};
ghost use Rattle.sim_session.specs.Turn.{Turns, RunsFrom};

use crate::SessionFault;
use crate::reading::read_text;
use sim_design::Design;
use sim_host::{Channel, Host, write_all};
use sim_journal::{End, Entry, append_entry};
use sim_memory::NoMemory;
use std::alloc::Global;
use vhpi_kernel::{Kernel, Plan, Step};

/// What a session is to run: the text of a design file, and the number of the cycle with which the
/// run ends at the latest.
#[derive(Drop)]
pub struct Job {
    pub text: Vec<u8>,
    pub limit: u32,
}

fn print_all(alloc: Global, design: &Design, entries: &[Entry]) -> Result<Vec<u8>, NoMemory>
    ensures { IfOk result (λ text. text.items ≡ Print design.now entries.now) }
{
    let mut text = Vec::new(alloc);
    for entry in entries {
        append_entry(&mut text, design, entry)?;
    }
    Ok(text)
}

// Makes one section of the run, and writes the lines of its entries.
fn turn<H: Host>(alloc: Global, kernel: &mut Kernel, host: &mut H) -> Result<Step, SessionFault>
    requires { kernel.old.journal ≡ [] }
    ensures turns { Turns result kernel.old kernel.new (H.seen host.old) (H.seen host.new) }
    ensures cause { HasSessionCause (H.faults host.old) (H.faults host.new) result }
{
    let step = kernel.advance()?;
    let entries = kernel.drain();
    let text = print_all(alloc, kernel.design(), entries.as_slice())?;
    write_all(host, Channel::Out, text.as_slice())?;
    Ok(step)
}

// Makes all sections of a run that begins.
fn run<H: Host>(alloc: Global, kernel: &mut Kernel, host: &mut H) -> Result<End, SessionFault>
    requires { kernel.old ≡ first_simulation kernel.old.design kernel.old.plan }
    ensures runs { RunsFrom result kernel.old.design kernel.old.plan (H.seen host.old) (H.seen host.new) }
    ensures cause { HasSessionCause (H.faults host.old) (H.faults host.new) result }
{
    'sections: loop {
        match turn(alloc, kernel, host) {
            Ok(Step::CycleEnd) => {}
            Ok(Step::Ended(end)) => return Ok(end),
            Err(fault) => return Err(fault),
        }
    }
}

/// Reads the text of a design file, which has at most 1,048,576 bytes, and runs its design. Each
/// entry is written to Out as a line, in order, section by section. Answers how the run ended;
/// `Design` where the text can't be run, with the cause; `Host` only where the host's count of faults
/// rose or stands at its last value. A run that is interrupted has written the first part of its
/// lines.
pub fn run_session<H: Host>(alloc: Global, job: Job, host: &mut H) -> Result<End, SessionFault>
    requires { length job.text.items ≤ 1048576 }
    ensures runs { Runs result job.text.items job.limit (H.seen host.old) (H.seen host.new) }
    ensures cause { HasSessionCause (H.faults host.old) (H.faults host.new) result }
{
    let Job { text, limit } = job;
    let design = read_text(alloc, text.as_slice())?;
    let mut kernel = Kernel::start(alloc, design, Plan { limit })?;
    run(alloc, &mut kernel, host)
}
