ghost use Rattle.std.specs.Prelude.{◌≡◌, ◌+◌, ◌-◌, ◌*◌, ◌^◌, ◌<◌, ◌≤◌, ℕ, true, false, not, nat_lt, List, ◌∷◌, Some, length, map, IfOk, slice_index_or, slice_set, vec_len};
ghost use Rattle.std.specs.Option.{SomeIff};
ghost use Rattle.sim_design.specs.Design.{time_high, IsNumbered};
ghost use Rattle.first_form.specs.Answers.{Gives};
ghost use Rattle.first_form.specs.Form as spec;
ghost use Rattle.first_form.specs.Building as building;
ghost use Rattle.first_form.specs.Building.{AddsNumber, AreNumbered, number_at};

use crate::fault::FormError;
use crate::form::{Assignment, Element, Form, TimeUnit};
use sim_design::{Design, Instance, Net, Process, WaveformElement};
use sqlite_items::Items;
use std::alloc::Global;
use std::collections::BTreeMap;

/// TIME'HIGH, in femtoseconds.
const TIME_HIGH: u128 = 9_223_372_036_854_775_807;

fn femtoseconds_in(unit: TimeUnit) -> u128
    ensures { result ≡ spec.femtoseconds_in unit }
{
    match unit {
        TimeUnit::Femtosecond => 1,
        TimeUnit::Picosecond => 1_000,
        TimeUnit::Nanosecond => 1_000_000,
        TimeUnit::Microsecond => 1_000_000_000,
        TimeUnit::Millisecond => 1_000_000_000_000,
        TimeUnit::Second => 1_000_000_000_000_000,
        TimeUnit::Minute => 60_000_000_000_000_000,
        TimeUnit::Hour => 3_600_000_000_000_000_000,
    }
}

/// The time of an element in femtoseconds, if it is a value of TIME.
fn delay_of(element: &Element) -> Option<u64>
    ensures { SomeIff result (spec.delay_of element.now ≤ time_high) (spec.delay_of element.now) }
{
    let delay = element.number.checked_mul(femtoseconds_in(element.unit))?;
    if delay <= TIME_HIGH {
        Some(delay as u64)
    } else {
        None
    }
}

fn transaction_of(element: &Element) -> Option<WaveformElement>
    ensures { result ≡ building.transaction_from element.now }
{
    let delay = delay_of(element)?;
    match element.literal {
        b'0' => Some(WaveformElement { value: 0, delay }),
        b'1' => Some(WaveformElement { value: 1, delay }),
        _ => None,
    }
}

/// The waveform of these elements, of which there is at least one.
fn waveform_from(
    alloc: Global,
    first: &Element,
    more: &[Element],
) -> Result<Items<WaveformElement>, FormError>
    ensures { Gives (λ w. w) result (building.waveform_from (first.now ∷ more.now)) }
{
    let Some(begun) = transaction_of(first) else {
        return Err(FormError::NotBuilt);
    };
    let mut last = begun.delay;
    let mut waveform = Items::new(alloc);
    waveform.push(begun)?;
    for element in more {
        let Some(next) = transaction_of(element) else {
            return Err(FormError::NotBuilt);
        };
        if next.delay <= last {
            return Err(FormError::NotBuilt);
        }
        last = next.delay;
        waveform.push(next)?;
    }
    Ok(waveform)
}

fn waveform_of(alloc: Global, elements: &[Element]) -> Result<Items<WaveformElement>, FormError>
    ensures { Gives (λ w. w) result (building.waveform_from elements.now) }
{
    match elements {
        [first, more @ ..] => waveform_from(alloc, first, more),
        [] => Err(FormError::NotBuilt),
    }
}

fn nets_of(alloc: Global, signals: &[Items<u8>]) -> Result<Items<Net>, FormError>
    ensures { Gives (λ n. n) result (Some (map spec.net_of signals.now)) }
{
    let mut nets = Items::new(alloc);
    for signal in signals {
        nets.push(Net {
            instance: 0,
            name: Items::from_slice(alloc, signal.as_slice())?,
            default: 0,
        })?;
    }
    Ok(nets)
}

/// Gives a name its number, unless it has one.
fn add_number<'a>(
    numbers: &mut BTreeMap<&'a [u8], u32>,
    name: &'a [u8],
    number: u32,
) -> Result<(), FormError>
    ensures { AddsNumber result numbers.old name.now number numbers.new }
{
    if numbers.contains_key(name) {
        return Err(FormError::NotBuilt);
    }
    numbers.insert(name, number)?;
    Ok(())
}

fn number_of_name(numbers: &BTreeMap<&[u8], u32>, name: &[u8]) -> Option<u32>
    ensures { result ≡ number_at numbers.now name.now }
{
    numbers.get(name).copied()
}

/// The numbers of the signals by their names, which are to differ.
fn numbers_of<'a>(
    alloc: Global,
    signals: &'a [Items<u8>],
) -> Result<BTreeMap<&'a [u8], u32>, FormError>
    requires { length signals.now < 2 ^ 32 }
    ensures { AreNumbered result signals.now }
{
    let mut numbers = BTreeMap::new(alloc);
    for (number, signal) in signals.iter().enumerate() {
        match add_number(&mut numbers, signal.as_slice(), number as u32) {
            Ok(()) => {}
            Err(fault) => return Err(fault),
        }
    }
    Ok(numbers)
}

fn process_of(
    alloc: Global,
    numbers: &BTreeMap<&[u8], u32>,
    assignment: &Assignment,
) -> Result<Process, FormError>
    ensures { Gives (λ p. p) result (building.process_with (number_at numbers.now assignment.now.target) assignment.now) }
{
    let Some(target) = number_of_name(numbers, assignment.target.as_slice()) else {
        return Err(FormError::NotBuilt);
    };
    let waveform = waveform_of(alloc, assignment.elements.as_slice())?;
    Ok(Process {
        instance: 0,
        target,
        waveform,
    })
}

/// Marks a signal as assigned, and says whether it wasn't before.
fn mark(assigned: &mut Vec<bool>, target: usize) -> bool
    requires { target < vec_len assigned.old }
    ensures first { result ≡ not (slice_index_or assigned.old.items target false) }
    ensures marked { assigned.new.items ≡ slice_set assigned.old.items target true }
{
    let first = !assigned[target];
    assigned[target] = true;
    first
}

/// The processes of the assignments, each of which has a signal of its own.
fn processes_of(
    alloc: Global,
    signals: &[Items<u8>],
    numbers: &BTreeMap<&[u8], u32>,
    assignments: &[Assignment],
) -> Result<Items<Process>, FormError>
    requires { (q : List ℕ) → number_at numbers.now q ≡ spec.number_in signals.now q }
    ensures { Gives (λ p. p) result (building.processes_from signals.now assignments.now) }
{
    let mut assigned = vec![in alloc; false; signals.len()]?;
    let mut processes = Items::new(alloc);
    for assignment in assignments {
        let process = match process_of(alloc, numbers, assignment) {
            Ok(process) => process,
            Err(fault) => return Err(fault),
        };
        if !mark(&mut assigned, process.target as usize) {
            return Err(FormError::NotBuilt);
        }
        processes.push(process)?;
    }
    Ok(processes)
}

/// Whether so many nets or processes can be numbered. A text of 1 MiB never has more, and a design that
/// has more has no place in memory.
fn can_be_numbered(count: usize) -> bool
    ensures { result ≡ nat_lt count (2 ^ 32) }
{
    count < 4_294_967_296
}

/// The design of a form, if its conditions hold.
pub fn design_of(alloc: Global, form: &Form) -> Result<Design, FormError>
    ensures read { Gives (λ d. d) result (building.design_from form.now) }
    ensures numbered { IfOk result (λ d. IsNumbered d) }
{
    let signals = form.signals.as_slice();
    let assignments = form.assignments.as_slice();
    if !can_be_numbered(signals.len()) || !can_be_numbered(assignments.len()) {
        return Err(FormError::NoMemory);
    }
    let numbers = match numbers_of(alloc, signals) {
        Ok(numbers) => numbers,
        Err(fault) => return Err(fault),
    };
    let processes = match processes_of(alloc, signals, &numbers, assignments) {
        Ok(processes) => processes,
        Err(fault) => return Err(fault),
    };
    let nets = nets_of(alloc, signals)?;
    let mut instances = Items::new(alloc);
    instances.push(Instance {
        name: Items::from_slice(alloc, form.entity.as_slice())?,
        architecture: Items::from_slice(alloc, form.architecture.as_slice())?,
    })?;
    Ok(Design {
        instances,
        nets,
        processes,
    })
}
