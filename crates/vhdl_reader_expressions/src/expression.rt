//! Relations and expressions (9.1, 9.2).

ghost use Rattle.std.specs.Prelude.{◌≡◌};
ghost use Rattle.vhdl_reader_expressions.specs.Steps.{Reads};
ghost use Rattle.vhdl_reader_expressions.specs.Reading as spec;
ghost use Rattle.vhdl_reader_expressions.specs.Nests.{Nests};

use crate::grammar::{Grammar, chained, pair};
use crate::tables::{again, chaining, relational, standing_once};
use crate::{Stop, Tokens};
use sqlite_items::Items;
use std::alloc::Global;
use vhdl_tree::{Expr, Link, Operator};

impl<F: Fn(Global, usize, usize, &mut Tokens<'_>) -> Result<Expr, Stop>> Grammar<F> {
    /// A relation that begins with this simple expression.
    #[tactic(auto, unfolding(crate::specs::Reading::relation_after))]
    pub fn relation_after(
        &self,
        tokens: &mut Tokens<'_>,
        place: u32,
        left: Expr,
    ) -> Result<Expr, Stop>
        requires { Nests self.now.turns self.now.depth (F.pre self.now.inner) (F.post self.now.inner) }
        ensures { Reads (spec.relation_after self.now.turns (spec.simple_at self.now.turns self.now.depth) place left tokens.old) result tokens.new }
    {
        match relational(tokens.kind()) {
            None => Ok(left),
            Some(operator) => {
                tokens.skip();
                let right = self.simple(tokens)?;
                Ok(pair(self.alloc, place, left, operator, right)?)
            }
        }
    }

    #[tactic(auto, unfolding(crate::specs::Reading::relation))]
    pub fn relation(&self, tokens: &mut Tokens<'_>) -> Result<Expr, Stop>
        requires { Nests self.now.turns self.now.depth (F.pre self.now.inner) (F.post self.now.inner) }
        ensures { Reads (spec.relation self.now.turns (spec.simple_at self.now.turns self.now.depth) tokens.old) result tokens.new }
    {
        let place = tokens.place();
        let left = self.simple(tokens)?;
        self.relation_after(tokens, place, left)
    }

    /// The same operator with further relations.
    pub fn relations(
        &self,
        tokens: &mut Tokens<'_>,
        operator: Operator,
        mut links: Items<Link>,
    ) -> Result<Items<Link>, Stop>
        requires { Nests self.now.turns self.now.depth (F.pre self.now.inner) (F.post self.now.inner) }
        ensures { Reads (spec.relations self.now.turns (spec.simple_at self.now.turns self.now.depth) operator links tokens.old) result tokens.new }
    {
        'turns: for _turn in 0..self.turns {
            match again(operator, tokens.kind()) {
                None => return Ok(links),
                Some(operator) => {
                    tokens.skip();
                    let right = self.relation(tokens)?;
                    links.push(Link { operator, right })?;
                }
            }
        }
        Err(Stop::Bound)
    }

    /// An expression that begins with this relation.
    #[tactic(auto, unfolding(crate::specs::Reading::expression_after))]
    pub fn expression_after(
        &self,
        tokens: &mut Tokens<'_>,
        place: u32,
        left: Expr,
    ) -> Result<Expr, Stop>
        requires { Nests self.now.turns self.now.depth (F.pre self.now.inner) (F.post self.now.inner) }
        ensures { Reads (spec.expression_after self.now.turns (spec.simple_at self.now.turns self.now.depth) place left tokens.old) result tokens.new }
    {
        match chaining(tokens.kind()) {
            Some(operator) => {
                tokens.skip();
                self.chain(tokens, place, left, operator)
            }
            None => self.once_after(tokens, place, left),
        }
    }

    /// What follows the first operator of a chain.
    #[tactic(auto, unfolding(crate::specs::Reading::chain))]
    pub fn chain(
        &self,
        tokens: &mut Tokens<'_>,
        place: u32,
        left: Expr,
        operator: Operator,
    ) -> Result<Expr, Stop>
        requires { Nests self.now.turns self.now.depth (F.pre self.now.inner) (F.post self.now.inner) }
        ensures { Reads (spec.chain self.now.turns (spec.simple_at self.now.turns self.now.depth) place left operator tokens.old) result tokens.new }
    {
        let right = self.relation(tokens)?;
        let mut links = Items::new(self.alloc);
        links.push(Link { operator, right })?;
        let links = self.relations(tokens, operator, links)?;
        Ok(chained(self.alloc, place, left, links)?)
    }

    /// The same, where its operator may stand once.
    #[tactic(auto, unfolding(crate::specs::Reading::once_after))]
    pub fn once_after(&self, tokens: &mut Tokens<'_>, place: u32, left: Expr) -> Result<Expr, Stop>
        requires { Nests self.now.turns self.now.depth (F.pre self.now.inner) (F.post self.now.inner) }
        ensures { Reads (spec.once_after self.now.turns (spec.simple_at self.now.turns self.now.depth) place left tokens.old) result tokens.new }
    {
        match standing_once(tokens.kind()) {
            Some(operator) => {
                tokens.skip();
                let right = self.relation(tokens)?;
                Ok(pair(self.alloc, place, left, operator, right)?)
            }
            None => Ok(left),
        }
    }

    /// An expression that begins with this simple expression.
    #[tactic(auto, unfolding(crate::specs::Reading::expression_from))]
    pub fn expression_from(
        &self,
        tokens: &mut Tokens<'_>,
        place: u32,
        left: Expr,
    ) -> Result<Expr, Stop>
        requires { Nests self.now.turns self.now.depth (F.pre self.now.inner) (F.post self.now.inner) }
        ensures { Reads (spec.expression_from self.now.turns (spec.simple_at self.now.turns self.now.depth) place left tokens.old) result tokens.new }
    {
        let first = self.relation_after(tokens, place, left)?;
        self.expression_after(tokens, place, first)
    }

    #[tactic(auto, unfolding(crate::specs::Reading::expression))]
    pub fn expression(&self, tokens: &mut Tokens<'_>) -> Result<Expr, Stop>
        requires { Nests self.now.turns self.now.depth (F.pre self.now.inner) (F.post self.now.inner) }
        ensures { Reads (spec.expression self.now.turns (spec.simple_at self.now.turns self.now.depth) tokens.old) result tokens.new }
    {
        let place = tokens.place();
        let left = self.simple(tokens)?;
        self.expression_from(tokens, place, left)
    }
}
