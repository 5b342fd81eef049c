//! The readers of expressions and names, for the readers of all that holds them.

ghost use Rattle.std.specs.Prelude.{◌≡◌};
ghost use Rattle.vhdl_reader_expressions.specs.Steps.{Reads};
ghost use Rattle.vhdl_reader_expressions.specs.Reading as spec;

use crate::grammar::{Grammar, simple};
use crate::{Stop, Tokens};
use sqlite_items::Items;
use std::alloc::Global;
use vhdl_tokens::Token;
use vhdl_tree::{Bounds, Choice, Expr, Name};

/// The readers of expressions and names, with one bound on the turns of their loops and on the depth of their
/// brackets. A bound above the number of tokens is never used up.
#[derive(Clone, Copy)]
pub struct Readers {
    pub alloc: Global,
    pub bound: usize,
}

impl Readers {
    /// An expression.
    #[tactic(auto, unfolding(crate::specs::Reading::expression_within))]
    pub fn expression(&self, tokens: &mut Tokens<'_>) -> Result<Expr, Stop>
        ensures { Reads (spec.expression_within self.now.bound tokens.old) result tokens.new }
    {
        Grammar {
            alloc: self.alloc,
            turns: self.bound,
            depth: self.bound,
            inner: simple,
        }
        .expression(tokens)
    }

    /// Choices, with `|` between them.
    #[tactic(auto, unfolding(crate::specs::Reading::choices_within))]
    pub fn choices(&self, tokens: &mut Tokens<'_>) -> Result<Items<Choice>, Stop>
        ensures { Reads (spec.choices_within self.now.bound tokens.old) result tokens.new }
    {
        Grammar {
            alloc: self.alloc,
            turns: self.bound,
            depth: self.bound,
            inner: simple,
        }
        .choices(tokens)
    }

    /// A name that begins with this identifier, which is read already.
    #[tactic(auto, unfolding(crate::specs::Reading::name_from_within))]
    pub fn name_from(&self, tokens: &mut Tokens<'_>, identifier: Token) -> Result<Name, Stop>
        ensures { Reads (spec.name_from_within self.now.bound identifier tokens.old) result tokens.new }
    {
        Grammar {
            alloc: self.alloc,
            turns: self.bound,
            depth: self.bound,
            inner: simple,
        }
        .name_from(tokens, identifier)
    }

    /// A name.
    #[tactic(auto, unfolding(crate::specs::Reading::name_within))]
    pub fn name(&self, tokens: &mut Tokens<'_>) -> Result<Name, Stop>
        ensures { Reads (spec.name_within self.now.bound tokens.old) result tokens.new }
    {
        Grammar {
            alloc: self.alloc,
            turns: self.bound,
            depth: self.bound,
            inner: simple,
        }
        .name(tokens)
    }

    /// A discrete range: two bounds, or a name that stands for them.
    #[tactic(auto, unfolding(crate::specs::Reading::bounds_within))]
    pub fn bounds(&self, tokens: &mut Tokens<'_>) -> Result<Bounds, Stop>
        ensures { Reads (spec.bounds_within self.now.bound tokens.old) result tokens.new }
    {
        Grammar {
            alloc: self.alloc,
            turns: self.bound,
            depth: self.bound,
            inner: simple,
        }
        .bounds(tokens)
    }
}
