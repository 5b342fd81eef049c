//! Aggregates (9.3.3).

ghost use Rattle.std.specs.Prelude.{◌≡◌, ◌+◌, ◌<◌, map, List, pos, ◌+ℤ◌, ◌-ℤ◌, IfOk};
ghost use Rattle.std.specs.List.{list_any};
ghost use Rattle.std.specs.Option.{option_map_or};
ghost use Rattle.sim_eval.specs.Aggregates as spec;
ghost use Rattle.sim_eval.specs.Located.{is_between};

use sim_memory::NoMemory;
use sim_operators::{are_equal, first_of};
use sqlite_items::Items;
use std::alloc::Global;
use vhpi_values::{IndexRange, Val};

/// What a choice of an aggregate or of a case statement chooses.
#[derive(Drop)]
pub enum Chosen {
    /// An index or a value.
    Value(Val),
    /// The indices or values from one to another, none where the first is the greater one.
    Range(i64, i64),
    Others,
}

/// An element association of an aggregate: its choices, and the number of the element.
#[derive(Drop)]
pub struct Element {
    pub choices: Items<Chosen>,
    pub number: i64,
}

/// The indices of an aggregate.
#[derive(Clone, Copy)]
struct Run {
    left: i64,
    is_ascending: bool,
    count: usize,
}

/// The least and the greatest index that is chosen.
#[derive(Clone, Copy)]
struct Extent {
    low: i64,
    high: i64,
}

/// The choice of what stands between two ends.
pub(crate) fn between(left: i64, is_ascending: bool, right: i64) -> Chosen
    ensures { result ≡ spec.between left is_ascending right }
{
    if is_ascending {
        Chosen::Range(left, right)
    } else {
        Chosen::Range(right, left)
    }
}

fn is_number(value: &Val, number: i128) -> bool
    ensures { result ≡ spec.is_number value.now number }
{
    i128::from(first_of(value.as_slice())) == number
}

fn chooses(number: i128, choice: &Chosen) -> bool
    ensures { result ≡ spec.chooses number choice.now }
{
    match choice {
        Chosen::Value(value) => is_number(value, number),
        Chosen::Range(low, high) => i128::from(*low) <= number && number <= i128::from(*high),
        Chosen::Others => false,
    }
}

fn is_others(choice: &Chosen) -> bool
    ensures { result ≡ spec.is_others choice.now }
{
    match choice {
        Chosen::Value(_) | Chosen::Range(_, _) => false,
        Chosen::Others => true,
    }
}

fn is_in(low: i64, high: i64, number: i64) -> bool
    ensures { result ≡ is_between low high number }
{
    low <= number && number <= high
}

/// Whether a choice of a case statement is that of a value (10.9).
pub fn is_chosen(value: &[i64], choice: &Chosen) -> bool
    ensures { result ≡ spec.is_chosen value.now choice.now }
{
    match choice {
        Chosen::Value(chosen) => are_equal(value, chosen.as_slice()),
        Chosen::Range(low, high) => is_in(*low, *high, first_of(value)),
        Chosen::Others => true,
    }
}

fn has_index(number: i128, element: &Element) -> bool
    ensures { result ≡ spec.has_index number element.now }
{
    element
        .choices
        .as_slice()
        .iter()
        .any(|choice| chooses(number, choice))
}

fn has_others(element: &Element) -> bool
    ensures { result ≡ spec.has_others element.now }
{
    element
        .choices
        .as_slice()
        .iter()
        .any(|choice| is_others(choice))
}

fn any_others(elements: &[Element]) -> bool
    ensures { result ≡ list_any spec.has_others elements.now }
{
    elements.iter().any(|element| has_others(element))
}

fn other_number(elements: &[Element]) -> i64
    ensures { result ≡ spec.other_number elements.now }
{
    for element in elements {
        if has_others(element) {
            return element.number;
        }
    }
    0
}

fn number_or(other: i64, number: i128, elements: &[Element]) -> i64
    ensures { result ≡ spec.number_or other number elements.now }
{
    for element in elements {
        if has_index(number, element) {
            return element.number;
        }
    }
    other
}

fn number_at(elements: &[Element], number: i128) -> i64
    ensures { result ≡ spec.number_at elements.now number }
{
    number_or(other_number(elements), number, elements)
}

fn widened_to(extent: Option<Extent>, low: i64, high: i64) -> Option<Extent>
    ensures { result ≡ spec.widened_to extent low high }
{
    match extent {
        None => Some(Extent { low, high }),
        Some(extent) => Some(Extent {
            low: extent.low.min(low),
            high: extent.high.max(high),
        }),
    }
}

fn widened(extent: Option<Extent>, choice: &Chosen) -> Option<Extent>
    ensures { result ≡ spec.widened extent choice.now }
{
    match choice {
        Chosen::Value(value) => {
            widened_to(
                extent,
                first_of(value.as_slice()),
                first_of(value.as_slice()),
            )
        }
        Chosen::Range(low, high) => widened_to(extent, *low, *high),
        Chosen::Others => extent,
    }
}

fn widened_by(extent: Option<Extent>, choices: &[Chosen]) -> Option<Extent>
    ensures { result ≡ spec.widened_by extent choices.now }
{
    let mut extent = extent;
    for choice in choices {
        extent = widened(extent, choice);
    }
    extent
}

fn extent_of(elements: &[Element]) -> Option<Extent>
    ensures { result ≡ spec.extent_by None elements.now }
{
    let mut extent = None;
    for element in elements {
        extent = widened_by(extent, element.choices.as_slice());
    }
    extent
}

fn count_up(low: i64, high: i64) -> Result<usize, NoMemory>
    ensures { IfOk result (λ count. count ≡ spec.count_up low high) }
{
    if high < low {
        return Ok(0);
    }
    match usize::try_from(i128::from(high) - i128::from(low) + 1) {
        Ok(count) => Ok(count),
        Err(_) => Err(NoMemory),
    }
}

fn run_over(is_ascending: bool, extent: Extent) -> Result<Run, NoMemory>
    ensures { IfOk result (λ run. run ≡ spec.run_over is_ascending extent) }
{
    let count = count_up(extent.low, extent.high)?;
    let left = if is_ascending {
        extent.low
    } else {
        extent.high
    };
    Ok(Run {
        left,
        is_ascending,
        count,
    })
}

fn run_of(range: IndexRange) -> Run
    ensures { result ≡ spec.run_of range }
{
    Run {
        left: i64::from(range.left),
        is_ascending: range.is_ascending,
        count: range.len(),
    }
}

fn no_run() -> Run
    ensures { result ≡ spec.no_run }
{
    Run {
        left: 0,
        is_ascending: true,
        count: 0,
    }
}

fn run_at(place: Option<IndexRange>) -> Run
    ensures { result ≡ option_map_or spec.run_of place spec.no_run }
{
    match place {
        Some(range) => run_of(range),
        None => no_run(),
    }
}

fn direction_at(place: Option<IndexRange>) -> bool
    ensures { result ≡ spec.direction_at place }
{
    match place {
        Some(range) => range.is_ascending,
        None => true,
    }
}

fn run_for(place: Option<IndexRange>, elements: &[Element]) -> Result<Run, NoMemory>
    ensures { IfOk result (λ run. run ≡ spec.run_for place elements.now) }
{
    if any_others(elements) {
        return Ok(run_at(place));
    }
    match extent_of(elements) {
        Some(extent) => run_over(direction_at(place), extent),
        None => Ok(no_run()),
    }
}

fn index_at(run: Run, place: usize) -> i128
    ensures { result ≡ spec.index_at run place }
{
    if run.is_ascending {
        i128::from(run.left) + place as i128
    } else {
        i128::from(run.left) - place as i128
    }
}

fn number_over(elements: &[Element], run: Run, place: usize) -> i64
    ensures { result ≡ spec.number_at elements.now (spec.index_at run place) }
{
    number_at(elements, index_at(run, place))
}

#[tactic(auto, using(crate::proofs::Tables::one_more))]
fn numbers_over(alloc: Global, run: Run, elements: &[Element]) -> Result<Vec<i64>, NoMemory>
    ensures { IfOk result (λ numbers. numbers.items ≡ spec.numbers_over run.count run elements.now) }
{
    let mut numbers = Vec::new(alloc);
    for place in 0..run.count {
        numbers.push(number_over(elements, run, place))?;
    }
    Ok(numbers)
}

/// The value of an aggregate with choices, at a place with these bounds.
pub(crate) fn assembled(
    alloc: Global,
    place: Option<IndexRange>,
    elements: &[Element],
) -> Result<Val, NoMemory>
    ensures { IfOk result (λ value. value ≡ spec.assembled place elements.now) }
{
    let run = run_for(place, elements)?;
    Ok(Val::from_vec(numbers_over(alloc, run, elements)?))
}
