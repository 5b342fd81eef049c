//! Elements and slices of objects (8.4, 8.5).

ghost use Rattle.std.specs.Prelude.{◌≡◌, ◌+◌, unsigned_abs, ◌-ℤ◌, ◌≤ℤ◌, true, IfOk};
ghost use Rattle.sim_operators.specs.Outcomes.{Gives};
ghost use Rattle.sim_eval.specs.Located as spec;

use sim_memory::NoMemory;
use sim_operators::Fault;
use vhpi_values::IndexRange;

/// Which elements of an object are named: those of an array, or one.
#[derive(Clone, Copy)]
pub struct Located {
    /// The place of the first one in the object, from the left.
    pub first: usize,
    /// Their indices, where they are an array.
    pub range: Option<IndexRange>,
}

impl Located {
    /// How many elements are named.
    pub fn count(&self) -> usize
        ensures { result ≡ spec.count_of self.now }
    {
        match self.range {
            Some(range) => range.len(),
            None => 1,
        }
    }
}

pub(crate) fn plus(a: usize, b: usize) -> Result<usize, NoMemory>
    ensures { IfOk result (λ sum. sum ≡ a + b) }
{
    match a.checked_add(b) {
        Some(sum) => Ok(sum),
        None => Err(NoMemory),
    }
}

fn is_between(low: i64, high: i64, number: i64) -> bool
    ensures { result ≡ spec.is_between low high number }
{
    low <= number && number <= high
}

fn is_inside(range: IndexRange, number: i64) -> bool
    ensures { result ≡ spec.is_inside range number }
{
    if range.is_ascending {
        is_between(i64::from(range.left), i64::from(range.right), number)
    } else {
        is_between(i64::from(range.right), i64::from(range.left), number)
    }
}

fn place_of(range: IndexRange, number: i64) -> usize
    ensures { result ≡ spec.place_of range number }
{
    (i128::from(number) - i128::from(range.left)).unsigned_abs() as usize
}

fn indexed_in(range: IndexRange, first: usize, number: i64) -> Result<Located, Fault>
    ensures { Gives result (spec.indexed_in range first number) }
{
    if is_inside(range, number) {
        let first = plus(first, place_of(range, number))?;
        Ok(Located { first, range: None })
    } else {
        Err(Fault::Index(number))
    }
}

/// The element at an index.
pub(crate) fn indexed(at: Located, number: i64) -> Result<Located, Fault>
    ensures { Gives result (spec.indexed at number) }
{
    match at.range {
        Some(range) => indexed_in(range, at.first, number),
        None => Err(Fault::Index(number)),
    }
}

fn narrowed(low: i32, high: i32, number: i64) -> i32
    requires low { low ≤ℤ number }
    requires high { number ≤ℤ high }
    ensures { result ≡ number }
{
    let _low = low;
    let _high = high;
    number as i32
}

fn bound(range: IndexRange, number: i64) -> i32
    requires { spec.is_inside range number ≡ true }
    ensures { result ≡ number }
{
    if range.is_ascending {
        narrowed(range.left, range.right, number)
    } else {
        narrowed(range.right, range.left, number)
    }
}

fn goes(is_ascending: bool, left: i64, right: i64) -> bool
    ensures { result ≡ spec.goes is_ascending left right }
{
    if is_ascending {
        left <= right
    } else {
        right <= left
    }
}

fn same_direction(a: bool, b: bool) -> bool
    ensures { result ≡ spec.same_direction a b }
{
    if a { b } else { !b }
}

fn sliced_in(
    range: IndexRange,
    first: usize,
    left: i64,
    is_ascending: bool,
    right: i64,
) -> Result<Located, Fault>
    ensures { Gives result (spec.sliced_in range first left is_ascending right) }
{
    if !is_inside(range, left) {
        return Err(Fault::Index(left));
    }
    if !is_inside(range, right) {
        return Err(Fault::Index(right));
    }
    if same_direction(range.is_ascending, is_ascending) && goes(is_ascending, left, right) {
        let first = plus(first, place_of(range, left))?;
        let range = IndexRange {
            left: bound(range, left),
            right: bound(range, right),
            is_ascending,
        };
        Ok(Located {
            first,
            range: Some(range),
        })
    } else {
        Err(Fault::Index(left))
    }
}

/// The slice between two ends.
pub(crate) fn sliced(
    at: Located,
    left: i64,
    is_ascending: bool,
    right: i64,
) -> Result<Located, Fault>
    ensures { Gives result (spec.sliced at left is_ascending right) }
{
    match at.range {
        Some(range) => sliced_in(range, at.first, left, is_ascending, right),
        None => Err(Fault::Index(left)),
    }
}
