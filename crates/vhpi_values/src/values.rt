ghost use Rattle.std.specs.Prelude.{◌≡◌, ◌↔◌, length, IsTrue, IfOk};
ghost use Rattle.vhpi_values.specs.Values.{Fits, default_value};

use crate::sequence::Sequence;
use crate::types::Ty;
use sim_memory::NoMemory;
use std::alloc::Global;
use std::marker::Model;

/// A value, seen as the list of its elements from left to right: positions, integers or
/// femtoseconds. A scalar has one.
#[derive(Debug, Drop)]
pub struct Val {
    elements: Sequence<i64>,
}

impl Model for Val {
    ghost use Rattle.std.specs.Prelude.{List, ℤ};

    ghost Value = { List ℤ };

    ghost view = { λ v. v.elements };
}

impl Val {
    /// The value with these elements; it takes no memory.
    pub fn from_vec(elements: Vec<i64>) -> Val
        ensures { result ≡ elements.items }
    {
        Val {
            elements: Sequence::from_vec(elements),
        }
    }

    /// The elements as a `Vec`; it takes no memory.
    pub fn into_vec(self) -> Vec<i64>
        ensures { result.items ≡ self }
    {
        let Val { elements } = self;
        elements.into_vec()
    }

    /// The elements from left to right.
    pub fn as_slice(&self) -> &[i64]
        ensures { result.now ≡ self.now }
    {
        self.elements.as_slice()
    }
}

/// The value is one of the type: a number for each element, each within the scalar subtype.
pub fn fits(ty: &Ty, val: &Val) -> bool
    ensures { IsTrue result ↔ Fits ty.now val.now }
{
    let elements = val.as_slice();
    elements.len() == ty.element_count() && elements.iter().all(|number| ty.is_within(*number))
}

/// The default value of the type: its leftmost value in each place.
pub fn default_of(alloc: Global, ty: &Ty) -> Result<Val, NoMemory>
    ensures { IfOk result (λ val. val ≡ default_value ty.now) }
{
    let elements = vec![in alloc; ty.left(); ty.element_count()]?;
    Ok(Val::from_vec(elements))
}
