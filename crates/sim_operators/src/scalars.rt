//! Values of one element.

ghost use Rattle.std.specs.Prelude.{◌≡◌, ◌∷◌, [], IfOk};
ghost use Rattle.vhpi_values.specs.Formats.{first};

use sim_memory::NoMemory;
use std::alloc::Global;
use vhpi_values::Val;

/// The number of a scalar; 0 where there is no element.
pub fn first_of(elements: &[i64]) -> i64
    ensures { result ≡ first elements.now }
{
    match elements {
        [first, ..] => *first,
        [] => 0,
    }
}

/// The value of a scalar with this number.
pub fn scalar(alloc: Global, number: i64) -> Result<Val, NoMemory>
    ensures { IfOk result (λ value. value ≡ number ∷ []) }
{
    Ok(Val::from_vec(vec![in alloc; number; 1]?))
}
