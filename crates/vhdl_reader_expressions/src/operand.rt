//! Operands, and the operators that bind more tightly than relations (9.2, 9.3).

ghost use Rattle.std.specs.Prelude.{◌≡◌};
ghost use Rattle.vhdl_reader_expressions.specs.Steps.{Reads};
ghost use Rattle.vhdl_reader_expressions.specs.Reading as spec;
ghost use Rattle.vhdl_reader_expressions.specs.Nests.{Nests};

use crate::grammar::{Grammar, bracketed, chained, pair, unary};
use crate::tables::{Start, adding, multiplying, prefix, sign, start_of};
use crate::{Stop, Tokens};
use sqlite_items::Items;
use std::alloc::Global;
use vhdl_tokens::{Delimiter, Kind};
use vhdl_tree::{Expr, Link, Operator};

impl<F: Fn(Global, usize, usize, &mut Tokens<'_>) -> Result<Expr, Stop>> Grammar<F> {
    /// A bracket: an aggregate, or a single expression.
    #[tactic(auto, unfolding(crate::specs::Reading::bracket))]
    pub fn bracket(&self, tokens: &mut Tokens<'_>) -> Result<Expr, Stop>
        requires { Nests self.now.turns self.now.depth (F.pre self.now.inner) (F.post self.now.inner) }
        ensures { Reads (spec.bracket self.now.turns (spec.simple_at self.now.turns self.now.depth) tokens.old) result tokens.new }
    {
        let place = tokens.place();
        tokens.word(Kind::Delimiter(Delimiter::LeftParen))?;
        let first = self.item(tokens)?;
        let mut found = Items::new(self.alloc);
        found.push(first)?;
        let items = self.items(tokens, found)?;
        tokens.word(Kind::Delimiter(Delimiter::RightParen))?;
        Ok(bracketed(self.alloc, place, items)?)
    }

    #[tactic(auto, unfolding(crate::specs::Reading::number))]
    pub fn number(&self, tokens: &mut Tokens<'_>) -> Result<Expr, Stop>
        requires { Nests self.now.turns self.now.depth (F.pre self.now.inner) (F.post self.now.inner) }
        ensures { Reads (spec.number self.now.turns (spec.simple_at self.now.turns self.now.depth) tokens.old) result tokens.new }
    {
        let number = tokens.any()?;
        let unit = tokens.optional(Kind::Identifier)?;
        Ok(Expr::Number(number, unit))
    }

    #[tactic(auto, unfolding(crate::specs::Reading::primary))]
    pub fn primary(&self, tokens: &mut Tokens<'_>) -> Result<Expr, Stop>
        requires { Nests self.now.turns self.now.depth (F.pre self.now.inner) (F.post self.now.inner) }
        ensures { Reads (spec.primary self.now.turns (spec.simple_at self.now.turns self.now.depth) tokens.old) result tokens.new }
    {
        match start_of(tokens.kind()) {
            Start::Named => {
                let name = self.name(tokens)?;
                Ok(Expr::Name(name))
            }
            Start::Numbered => self.number(tokens),
            Start::Spelled => {
                let literal = tokens.any()?;
                Ok(Expr::Literal(literal))
            }
            Start::Bracketed => self.bracket(tokens),
            Start::Other => Err(Stop::Syntax),
        }
    }

    /// A factor that begins with this operand.
    #[tactic(auto, unfolding(crate::specs::Reading::factor_after))]
    pub fn factor_after(
        &self,
        tokens: &mut Tokens<'_>,
        place: u32,
        left: Expr,
    ) -> Result<Expr, Stop>
        requires { Nests self.now.turns self.now.depth (F.pre self.now.inner) (F.post self.now.inner) }
        ensures { Reads (spec.factor_after self.now.turns (spec.simple_at self.now.turns self.now.depth) place left tokens.old) result tokens.new }
    {
        if !tokens.eat(Kind::Delimiter(Delimiter::DoubleStar)) {
            return Ok(left);
        }
        let right = self.primary(tokens)?;
        Ok(pair(self.alloc, place, left, Operator::Power, right)?)
    }

    #[tactic(auto, unfolding(crate::specs::Reading::factor))]
    pub fn factor(&self, tokens: &mut Tokens<'_>) -> Result<Expr, Stop>
        requires { Nests self.now.turns self.now.depth (F.pre self.now.inner) (F.post self.now.inner) }
        ensures { Reads (spec.factor self.now.turns (spec.simple_at self.now.turns self.now.depth) tokens.old) result tokens.new }
    {
        let place = tokens.place();
        match prefix(tokens.kind()) {
            Some(operator) => {
                tokens.skip();
                let operand = self.primary(tokens)?;
                Ok(unary(self.alloc, place, operator, operand)?)
            }
            None => {
                let left = self.primary(tokens)?;
                self.factor_after(tokens, place, left)
            }
        }
    }

    /// Further factors behind these.
    pub fn factors(
        &self,
        tokens: &mut Tokens<'_>,
        mut links: Items<Link>,
    ) -> Result<Items<Link>, Stop>
        requires { Nests self.now.turns self.now.depth (F.pre self.now.inner) (F.post self.now.inner) }
        ensures { Reads (spec.factors self.now.turns (spec.simple_at self.now.turns self.now.depth) links tokens.old) result tokens.new }
    {
        'turns: for _turn in 0..self.turns {
            match multiplying(tokens.kind()) {
                None => return Ok(links),
                Some(operator) => {
                    tokens.skip();
                    let right = self.factor(tokens)?;
                    links.push(Link { operator, right })?;
                }
            }
        }
        Err(Stop::Bound)
    }

    #[tactic(auto, unfolding(crate::specs::Reading::term))]
    pub fn term(&self, tokens: &mut Tokens<'_>) -> Result<Expr, Stop>
        requires { Nests self.now.turns self.now.depth (F.pre self.now.inner) (F.post self.now.inner) }
        ensures { Reads (spec.term self.now.turns (spec.simple_at self.now.turns self.now.depth) tokens.old) result tokens.new }
    {
        let place = tokens.place();
        let first = self.factor(tokens)?;
        let links = self.factors(tokens, Items::new(self.alloc))?;
        Ok(chained(self.alloc, place, first, links)?)
    }

    /// A term with its sign, if it has one.
    #[tactic(auto, unfolding(crate::specs::Reading::signed))]
    pub fn signed(&self, tokens: &mut Tokens<'_>) -> Result<Expr, Stop>
        requires { Nests self.now.turns self.now.depth (F.pre self.now.inner) (F.post self.now.inner) }
        ensures { Reads (spec.signed self.now.turns (spec.simple_at self.now.turns self.now.depth) tokens.old) result tokens.new }
    {
        let place = tokens.place();
        match sign(tokens.kind()) {
            Some(operator) => {
                tokens.skip();
                let operand = self.term(tokens)?;
                Ok(unary(self.alloc, place, operator, operand)?)
            }
            None => self.term(tokens),
        }
    }

    /// Further terms behind these.
    pub fn terms(
        &self,
        tokens: &mut Tokens<'_>,
        mut links: Items<Link>,
    ) -> Result<Items<Link>, Stop>
        requires { Nests self.now.turns self.now.depth (F.pre self.now.inner) (F.post self.now.inner) }
        ensures { Reads (spec.terms self.now.turns (spec.simple_at self.now.turns self.now.depth) links tokens.old) result tokens.new }
    {
        'turns: for _turn in 0..self.turns {
            match adding(tokens.kind()) {
                None => return Ok(links),
                Some(operator) => {
                    tokens.skip();
                    let right = self.term(tokens)?;
                    links.push(Link { operator, right })?;
                }
            }
        }
        Err(Stop::Bound)
    }

    /// A simple expression.
    #[tactic(auto, unfolding(crate::specs::Reading::level))]
    pub fn level(&self, tokens: &mut Tokens<'_>) -> Result<Expr, Stop>
        requires { Nests self.now.turns self.now.depth (F.pre self.now.inner) (F.post self.now.inner) }
        ensures { Reads (spec.level self.now.turns (spec.simple_at self.now.turns self.now.depth) tokens.old) result tokens.new }
    {
        let place = tokens.place();
        let first = self.signed(tokens)?;
        let links = self.terms(tokens, Items::new(self.alloc))?;
        Ok(chained(self.alloc, place, first, links)?)
    }
}
