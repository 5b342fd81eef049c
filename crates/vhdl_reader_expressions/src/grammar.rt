//! The readers, which take the reader of simple expressions one bracket further in as a parameter, so that each is
//! proved by itself.

ghost use Rattle.std.specs.Prelude.{◌≡◌, [], ◌∷◌, IfOk};
ghost use Rattle.vhdl_tree.specs.Expressions as grammar;
ghost use Rattle.vhdl_tree.specs.declared.expressions.Expr.TheVariants as variants;
ghost use Rattle.vhdl_reader_expressions.specs.Steps.{Reads};
ghost use Rattle.vhdl_reader_expressions.specs.Reading as spec;
ghost use Rattle.vhdl_reader_expressions.specs.Nests.{Nests};

use crate::{Stop, Tokens};
use sqlite_items::{Boxed, Items};
use std::alloc::{AllocError, Global};
use vhdl_tree::{Expr, Item, Link, Operator, Unary};

#[derive(Clone, Copy)]
pub struct Grammar<F> {
    pub alloc: Global,
    /// The bound on the turns of a loop.
    pub turns: usize,
    /// How deep brackets may still nest.
    pub depth: usize,
    pub inner: F,
}

impl<F: Fn(Global, usize, usize, &mut Tokens<'_>) -> Result<Expr, Stop>> Grammar<F> {
    /// A simple expression one bracket further in.
    pub fn simple(&self, tokens: &mut Tokens<'_>) -> Result<Expr, Stop>
        requires { Nests self.now.turns self.now.depth (F.pre self.now.inner) (F.post self.now.inner) }
        ensures { Reads (spec.simple_at self.now.turns self.now.depth tokens.old) result tokens.new }
    {
        (self.inner)(self.alloc, self.turns, self.depth, tokens)
    }
}

/// A simple expression.
pub fn simple(
    alloc: Global,
    turns: usize,
    depth: usize,
    tokens: &mut Tokens<'_>,
) -> Result<Expr, Stop>
    ensures { Reads (spec.simple_at turns depth tokens.old) result tokens.new }
{
    if depth == 0 {
        return Err(Stop::Bound);
    }
    Grammar {
        alloc,
        turns,
        depth: depth - 1,
        inner: simple,
    }
    .level(tokens)
}

/// The first operand alone, or with what is linked to it.
pub fn chained(
    alloc: Global,
    place: u32,
    first: Expr,
    links: Items<Link>,
) -> Result<Expr, AllocError>
    ensures { IfOk result (λ e. e ≡ grammar.chained place first links) }
{
    if links.is_empty() {
        return Ok(first);
    }
    Ok(Expr::Chain(place, Boxed::new(alloc, first)?, links))
}

/// Two operands.
pub fn pair(
    alloc: Global,
    place: u32,
    left: Expr,
    operator: Operator,
    right: Expr,
) -> Result<Expr, AllocError>
    ensures { IfOk result (λ e. e ≡ spec.pair place left operator right) }
{
    let mut links = Items::new(alloc);
    links.push(Link { operator, right })?;
    Ok(Expr::Chain(place, Boxed::new(alloc, left)?, links))
}

/// An operand with an operator before it.
pub fn unary(alloc: Global, place: u32, operator: Unary, operand: Expr) -> Result<Expr, AllocError>
    ensures { IfOk result (λ e. e ≡ variants.Unary place operator operand) }
{
    Ok(Expr::Unary(place, operator, Boxed::new(alloc, operand)?))
}

fn lone(alloc: Global, place: u32, item: Item) -> Result<Expr, AllocError>
    ensures { IfOk result (λ e. e ≡ grammar.bracketed place (item ∷ [])) }
{
    if item.choices.is_empty() {
        let Item { value, .. } = item;
        return Ok(value);
    }
    let mut items = Items::new(alloc);
    items.push(item)?;
    Ok(Expr::Aggregate(place, items))
}

/// What a bracket with these elements is.
pub fn bracketed(alloc: Global, place: u32, mut items: Items<Item>) -> Result<Expr, AllocError>
    ensures { IfOk result (λ e. e ≡ grammar.bracketed place items) }
{
    if items.len() != 1 {
        return Ok(Expr::Aggregate(place, items));
    }
    let item = items.remove(0);
    lone(alloc, place, item)
}
