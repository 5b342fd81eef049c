// What a section of a run does with drivers and nets, over plain lists.
ghost use Rattle.std.specs.Prelude.{◌≡◌, ◌≤◌, ◌<◌, ◌+◌, ◌^◌, ℕ, length, map, [], ◌∷◌, ◌++◌, List, Option, None, OnOk, IfOk, IsTrue, slice_index_or, true};
ghost use Rattle.std.specs.List.{list_all};
ghost use Rattle.sim_design.specs.Design.{is_waveform, is_in_time, time_high};
ghost use Rattle.sim_waves.specs.Waveform.{is_active, at_time, is_rising, IsWithinFirst};
ghost use Rattle.vhpi_kernel.specs.State.{sooner, next_of, table, transaction, ran, all_ran, event_of, first_wave};
ghost use Rattle.vhpi_kernel.specs.Index.{IsWithin, value_by, indexed_value, updated_by, updated_value_by, events_by};

use crate::NoMemory;
use sim_design::{Design, Net, Process, WaveformElement};
use sim_journal::Entry;
use sim_waves::{DelayMode, Transaction, Wave};
use std::alloc::Global;

fn sooner_of(a: Option<u64>, b: Option<u64>) -> Option<u64>
    ensures { result ≡ sooner a b }
{
    match (a, b) {
        (None, _) => b,
        (_, None) => a,
        (Some(x), Some(y)) => Some(x.min(y)),
    }
}

/// The least time of a pending transaction, in femtoseconds.
pub(crate) fn next_time(waves: &[Wave]) -> Option<u64>
    ensures { result ≡ next_of waves.now }
{
    let mut next = None;
    for wave in waves {
        next = sooner_of(next, wave.next_time());
    }
    next
}

// The value that drives a net: that of its driver, or else its default.
fn driving(net: &Net, driver: Option<u32>, waves: &[Wave]) -> i64
    requires { IsWithin driver (length waves.now) }
    ensures { result ≡ value_by net.now.default waves.now driver }
{
    match driver {
        None => net.default,
        Some(number) => waves[number as usize].current(),
    }
}

/// The value that drives each net.
pub(crate) fn driving_values(
    alloc: Global,
    nets: &[Net],
    index: &[Option<u32>],
    waves: &[Wave],
) -> Result<Vec<i64>, NoMemory>
    requires size { length index.now ≡ length nets.now }
    requires within { (e : ℕ) → e < length nets.now → IsWithin (slice_index_or index.now e None) (length waves.now) }
    ensures { IfOk result (λ values. values.items ≡ table (length nets.now) (indexed_value nets.now index.now waves.now)) }
{
    let mut values = Vec::new(alloc);
    for net in 0..nets.len() {
        values.push(driving(&nets[net], index[net], waves))?;
    }
    Ok(values)
}

/// Advances each waveform to the time `now`, and notes which of them are active.
pub(crate) fn activate_all(
    waves: &mut [Wave],
    now: u64,
    active: &mut Vec<bool>,
) -> Result<(), NoMemory>
    ensures waves { OnOk result (waves.new ≡ map (at_time now) waves.old) }
    ensures active { OnOk result (active.new.items ≡ map (is_active now) waves.old) }
{
    active.clear();
    for wave in waves.iter_mut() {
        active.push(wave.activate(now))?;
    }
    Ok(())
}

fn updated(driver: Option<u32>, active: &[bool], waves: &[Wave], old: &[i64], net: usize) -> i64
    requires waves { IsWithin driver (length waves.now) }
    requires active { IsWithin driver (length active.now) }
    requires net { net < length old.now }
    ensures { result ≡ updated_by driver active.now waves.now old.now net }
{
    match driver {
        Some(number) if active[number as usize] => waves[number as usize].current(),
        _ => old[net],
    }
}

fn push_updated(
    values: &mut Vec<i64>,
    driver: Option<u32>,
    active: &[bool],
    waves: &[Wave],
    old: &[i64],
    net: usize,
) -> Result<(), NoMemory>
    requires waves { IsWithin driver (length waves.now) }
    requires active { IsWithin driver (length active.now) }
    requires net { net < length old.now }
    ensures { OnOk result (values.new.items ≡ values.old.items ++ updated_by driver active.now waves.now old.now net ∷ []) }
{
    values.push(updated(driver, active, waves, old, net))?;
    Ok(())
}

/// Gives each net its new value, into `values`, and writes an entry for each net with an event.
pub(crate) fn settle(
    index: &[Option<u32>],
    active: &[bool],
    waves: &[Wave],
    old: &[i64],
    values: &mut Vec<i64>,
    journal: &mut Vec<Entry>,
) -> Result<(), NoMemory>
    requires size { length index.now ≡ length old.now }
    requires nets { length old.now < 2 ^ 32 }
    requires waves { (e : ℕ) → e < length old.now → IsWithin (slice_index_or index.now e None) (length waves.now) }
    requires active { length active.now ≡ length waves.now }
    ensures values { OnOk result (values.new.items ≡ table (length old.now) (updated_value_by index.now active.now waves.now old.now)) }
    ensures journal { OnOk result (journal.new.items ≡ journal.old.items ++ events_by (length old.now) old.now (updated_value_by index.now active.now waves.now old.now)) }
{
    values.clear();
    for net in 0..old.len() {
        push_updated(values, index[net], active, waves, old, net)?;
        note_event(old, values.as_slice(), net, journal)?;
    }
    Ok(())
}

// Writes the entry of a net's event, where its value changes.
fn note_event(
    old: &[i64],
    new: &[i64],
    net: usize,
    journal: &mut Vec<Entry>,
) -> Result<(), NoMemory>
    requires old { net < length old.now }
    requires new { net < length new.now }
    requires number { net < 2 ^ 32 }
    ensures { OnOk result (journal.new.items ≡ journal.old.items ++ event_of old.now new.now net) }
{
    if old[net] != new[net] {
        journal.push(Entry::Event {
            net: net as u32,
            value: new[net],
        })?;
    }
    Ok(())
}

// The transactions of a waveform that is assigned now.
fn transactions(
    alloc: Global,
    now: u64,
    waveform: &[WaveformElement],
) -> Result<Vec<Transaction>, NoMemory>
    requires now { now ≤ time_high }
    requires delays { list_all is_in_time waveform.now ≡ true }
    ensures { IfOk result (λ new. new.items ≡ map (transaction now) waveform.now) }
{
    let mut new = Vec::new(alloc);
    for element in waveform {
        new.push(Transaction {
            value: element.value,
            time: now + element.delay,
        })?;
    }
    Ok(new)
}

// Runs a process to its wait, over the waveform of its driver.
fn run(alloc: Global, now: u64, process: &Process, wave: &mut Wave) -> Result<(), NoMemory>
    requires now { now ≤ time_high }
    requires waveform { IsTrue (is_waveform process.now.waveform) }
    ensures { OnOk result (wave.new ≡ ran now process.now wave.old) }
{
    let waveform = process.waveform.as_slice();
    let new = transactions(alloc, now, waveform)?;
    wave.assign(DelayMode::Inertial, waveform[0].delay, &new)
}

/// Runs each process to its wait, each over the waveform of its driver.
pub(crate) fn run_all(
    alloc: Global,
    now: u64,
    processes: &[Process],
    waves: &mut [Wave],
) -> Result<(), NoMemory>
    requires now { now ≤ time_high }
    requires waveforms { list_all (λ p. is_waveform p.waveform) processes.now ≡ true }
    requires size { length waves.old ≡ length processes.now }
    ensures { OnOk result (waves.new ≡ all_ran now processes.now waves.old) }
{
    for number in 0..processes.len() {
        run(alloc, now, &processes[number], &mut waves[number])?;
    }
    Ok(())
}

/// The default value of each net.
pub(crate) fn default_values(alloc: Global, nets: &[Net]) -> Result<Vec<i64>, NoMemory>
    ensures { IfOk result (λ values. values.items ≡ map (λ n. n.default) nets.now) }
{
    let mut values = Vec::new(alloc);
    for net in nets {
        values.push(net.default)?;
    }
    Ok(values)
}

fn first_wave_of(alloc: Global, design: &Design, process: &Process) -> Wave
    ensures { result ≡ first_wave design.now process.now }
{
    match design.nets.get(process.target as usize) {
        Some(net) => Wave::new(alloc, net.default),
        None => Wave::new(alloc, 0),
    }
}

/// The waveform of each driver before its process has run.
pub(crate) fn first_waves(alloc: Global, design: &Design) -> Result<Vec<Wave>, NoMemory>
    ensures { IfOk result (λ waves. waves.items ≡ map (first_wave design.now) design.now.processes) }
{
    let mut waves = Vec::new(alloc);
    for process in design.processes.as_slice() {
        waves.push(first_wave_of(alloc, design, process))?;
    }
    Ok(waves)
}
