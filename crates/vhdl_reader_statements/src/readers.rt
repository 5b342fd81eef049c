//! The readers of statements and of what is in them, for the readers of all that holds them.

ghost use Rattle.std.specs.Prelude.{◌≡◌};
ghost use Rattle.vhdl_reader_expressions.specs.Steps.{Reads};
ghost use Rattle.vhdl_reader_statements.specs.Reading as spec;

use crate::sequence::statements;
use crate::simple::Simple;
use sqlite_items::Items;
use std::alloc::Global;
use vhdl_reader_expressions::{Stop, Tokens};
use vhdl_tree::{Delay, Element, Name, Statement};

/// The readers of sequential statements, with one bound on the turns of their loops and on the depth of compound
/// statements and brackets. A bound above the number of tokens is never used up.
#[derive(Clone, Copy)]
pub struct Statements {
    pub alloc: Global,
    pub bound: usize,
}

impl Statements {
    /// A delay mechanism (10.5.2.1). Without one the delay is inertial.
    pub fn delay(&self, tokens: &mut Tokens<'_>) -> Result<Delay, Stop>
        ensures { Reads (spec.delay_within self.now.bound tokens.old) result tokens.new }
    {
        Simple {
            alloc: self.alloc,
            bound: self.bound,
        }
        .delay(tokens)
    }

    /// A waveform (10.5.2.1): its elements, with commas between them.
    pub fn waveform(&self, tokens: &mut Tokens<'_>) -> Result<Items<Element>, Stop>
        ensures { Reads (spec.waveform_within self.now.bound tokens.old) result tokens.new }
    {
        Simple {
            alloc: self.alloc,
            bound: self.bound,
        }
        .waveform(tokens)
    }

    /// Names with commas between them, as in a sensitivity list (10.2).
    pub fn names(&self, tokens: &mut Tokens<'_>) -> Result<Items<Name>, Stop>
        ensures { Reads (spec.names_within self.now.bound tokens.old) result tokens.new }
    {
        Simple {
            alloc: self.alloc,
            bound: self.bound,
        }
        .names(tokens)
    }

    /// Sequential statements (10.1), up to a token that begins none.
    #[tactic(auto, unfolding(crate::specs::Reading::statements_within))]
    pub fn statements(&self, tokens: &mut Tokens<'_>) -> Result<Items<Statement>, Stop>
        ensures { Reads (spec.statements_within self.now.bound tokens.old) result tokens.new }
    {
        statements(self.alloc, self.bound, self.bound, tokens)
    }
}
