//! What an expression reads.

use sim_elaborated::{Constant, ElementState, Generic, Net, Variable};
use std::marker::Model;
use vhpi_values::{Ty, Val};

/// The objects that an expression reads: those of one instance and of one process of it.
#[derive(Drop)]
pub struct Env<'a> {
    /// The types of the design.
    pub types: &'a [Ty],
    /// The generics of the instance.
    pub generics: &'a [Generic],
    /// The constants of the instance.
    pub constants: &'a [Constant],
    /// The ports and signals of the instance.
    pub nets: &'a [Net],
    /// The elements of all nets of the design, by number. While the design is elaborated there are none.
    pub elements: &'a [ElementState],
    /// The variables of the process.
    pub variables: &'a [Variable],
    /// The values of these variables.
    pub values: &'a [Val],
    /// The parameters of the `for` loops around, from the outermost.
    pub parameters: &'a [i64],
    /// The time at which the design is, in femtoseconds.
    pub time: u64,
}

impl<'a> Model for Env<'a> {
    ghost use Rattle.sim_eval.specs.Objects.{Objects};

    ghost Value = { Objects };

    ghost view = { λ e. record {
      types = e.types.now;
      generics = e.generics.now;
      constants = e.constants.now;
      nets = e.nets.now;
      elements = e.elements.now;
      variables = e.variables.now;
      values = e.values.now;
      parameters = e.parameters.now;
      time = e.time;
    } };
}
