// The steps of a section, over the design and the lists that a kernel keeps.
ghost use Rattle.std.specs.Prelude.{◌≡◌, ◌≤◌, ◌++◌, length, map, OnOk, IfOk};
ghost use Rattle.sim_design.specs.Design.{time_high};
ghost use Rattle.sim_waves.specs.Waveform.{at_time};
ghost use Rattle.vhpi_kernel.specs.State.{table, driving_value, updated_value, events, all_ran};
ghost use Rattle.vhpi_kernel.specs.Kernel.{IsWired};

use crate::NoMemory;
use crate::signals::{activate_all, driving_values, run_all, settle};
use sim_design::Design;
use sim_journal::Entry;
use sim_waves::Wave;
use std::alloc::Global;

/// The value that drives each net, with the waveforms as they are.
pub(crate) fn computed_values(
    alloc: Global,
    design: &Design,
    index: &[Option<u32>],
    waves: &[Wave],
) -> Result<Vec<i64>, NoMemory>
    requires { IsWired design.now index.now waves.now }
    ensures values { IfOk result (λ v. v.items ≡ table (length design.now.nets) (driving_value design.now waves.now)) }
    ensures len { IfOk result (λ v. length v.items ≡ length design.now.nets) }
{
    let values = driving_values(alloc, design.nets.as_slice(), index, waves)?;
    Ok(values)
}

/// Each process runs to its wait.
pub(crate) fn run_processes(
    alloc: Global,
    now: u64,
    design: &Design,
    index: &[Option<u32>],
    waves: &mut [Wave],
) -> Result<(), NoMemory>
    requires wired { IsWired design.now index.now waves.old }
    requires now { now ≤ time_high }
    ensures ran { OnOk result (waves.new ≡ all_ran now design.now.processes waves.old) }
    ensures wired { IsWired design.now index.now waves.new }
{
    run_all(alloc, now, design.processes.as_slice(), waves)
}

/// The drivers whose next transaction has the time `now` become active, and each net gets its new
/// value, into `settled`.
pub(crate) fn update_signals(
    now: u64,
    design: &Design,
    index: &[Option<u32>],
    waves: &mut [Wave],
    active: &mut Vec<bool>,
    old: &[i64],
    settled: &mut Vec<i64>,
    journal: &mut Vec<Entry>,
) -> Result<(), NoMemory>
    requires wired { IsWired design.now index.now waves.old }
    requires values { length old.now ≡ length design.now.nets }
    ensures waves { OnOk result (waves.new ≡ map (at_time now) waves.old) }
    ensures values { OnOk result (settled.new.items ≡ table (length design.now.nets) (updated_value design.now now old.now waves.old)) }
    ensures len { OnOk result (length settled.new.items ≡ length design.now.nets) }
    ensures journal { OnOk result (journal.new.items ≡ journal.old.items ++ events (length design.now.nets) old.now settled.new.items) }
    ensures wired { IsWired design.now index.now waves.new }
{
    activate_all(waves, now, active)?;
    settle(index, active.as_slice(), waves, old, settled, journal)?;
    Ok(())
}
