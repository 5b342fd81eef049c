//! Discrete ranges (5.3.2.1).

ghost use Rattle.std.specs.Prelude.{◌≡◌};
ghost use Rattle.vhdl_reader_expressions.specs.Steps.{Reads};
ghost use Rattle.vhdl_reader_expressions.specs.Reading as spec;
ghost use Rattle.vhdl_reader_expressions.specs.Nests.{Nests};

use crate::grammar::Grammar;
use crate::tables::{begins_name, direction_of};
use crate::{Stop, Tokens};
use std::alloc::Global;
use vhdl_tree::{Bounds, Expr};

/// The bounds that an expression is by itself: it has to be a name.
#[tactic(auto, unfolding(crate::specs::Reading::bounds_alone))]
fn bounds_alone(tokens: &mut Tokens<'_>, left: Expr) -> Result<Bounds, Stop>
    ensures { Reads (spec.bounds_alone left tokens.old) result tokens.new }
{
    match left {
        Expr::Name(name) => Ok(Bounds::Name(name)),
        _ => Err(Stop::Syntax),
    }
}

/// The same, where it may be that: there is no bracket round it.
#[tactic(auto, unfolding(crate::specs::Reading::bounds_by))]
fn bounds_by(tokens: &mut Tokens<'_>, named: bool, left: Expr) -> Result<Bounds, Stop>
    ensures { Reads (spec.bounds_by named left tokens.old) result tokens.new }
{
    if named {
        bounds_alone(tokens, left)
    } else {
        Err(Stop::Syntax)
    }
}

impl<F: Fn(Global, usize, usize, &mut Tokens<'_>) -> Result<Expr, Stop>> Grammar<F> {
    /// Bounds that begin with this simple expression, and by a name where `named` says so.
    #[tactic(auto, unfolding(crate::specs::Reading::bounds_after))]
    pub fn bounds_after(
        &self,
        tokens: &mut Tokens<'_>,
        named: bool,
        left: Expr,
    ) -> Result<Bounds, Stop>
        requires { Nests self.now.turns self.now.depth (F.pre self.now.inner) (F.post self.now.inner) }
        ensures { Reads (spec.bounds_after self.now.turns (spec.simple_at self.now.turns self.now.depth) named left tokens.old) result tokens.new }
    {
        match direction_of(tokens.kind()) {
            Some(direction) => {
                tokens.skip();
                let right = self.simple(tokens)?;
                Ok(Bounds::Range(left, direction, right))
            }
            None => bounds_by(tokens, named, left),
        }
    }

    #[tactic(auto, unfolding(crate::specs::Reading::bounds))]
    pub fn bounds(&self, tokens: &mut Tokens<'_>) -> Result<Bounds, Stop>
        requires { Nests self.now.turns self.now.depth (F.pre self.now.inner) (F.post self.now.inner) }
        ensures { Reads (spec.bounds self.now.turns (spec.simple_at self.now.turns self.now.depth) tokens.old) result tokens.new }
    {
        let named = begins_name(tokens.kind());
        let left = self.simple(tokens)?;
        self.bounds_after(tokens, named, left)
    }
}
