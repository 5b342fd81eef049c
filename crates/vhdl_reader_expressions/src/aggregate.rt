//! Choices and aggregates (9.3.3).

ghost use Rattle.std.specs.Prelude.{◌≡◌};
ghost use Rattle.vhdl_reader_expressions.specs.Steps.{Reads};
ghost use Rattle.vhdl_reader_expressions.specs.Reading as spec;
ghost use Rattle.vhdl_reader_expressions.specs.Nests.{Nests};

use crate::grammar::Grammar;
use crate::tables::{direction_of, ends_choice, is_others};
use crate::{Stop, Tokens};
use sqlite_items::Items;
use std::alloc::Global;
use vhdl_tokens::{Delimiter, Kind};
use vhdl_tree::{Choice, Expr, Item};

impl<F: Fn(Global, usize, usize, &mut Tokens<'_>) -> Result<Expr, Stop>> Grammar<F> {
    /// A choice that begins with this simple expression.
    #[tactic(auto, unfolding(crate::specs::Reading::choice_after))]
    pub fn choice_after(&self, tokens: &mut Tokens<'_>, left: Expr) -> Result<Choice, Stop>
        requires { Nests self.now.turns self.now.depth (F.pre self.now.inner) (F.post self.now.inner) }
        ensures { Reads (spec.choice_after self.now.turns (spec.simple_at self.now.turns self.now.depth) left tokens.old) result tokens.new }
    {
        match direction_of(tokens.kind()) {
            None => Ok(Choice::Value(left)),
            Some(direction) => {
                tokens.skip();
                let right = self.simple(tokens)?;
                Ok(Choice::Range(left, direction, right))
            }
        }
    }

    #[tactic(auto, unfolding(crate::specs::Reading::choice))]
    pub fn choice(&self, tokens: &mut Tokens<'_>) -> Result<Choice, Stop>
        requires { Nests self.now.turns self.now.depth (F.pre self.now.inner) (F.post self.now.inner) }
        ensures { Reads (spec.choice self.now.turns (spec.simple_at self.now.turns self.now.depth) tokens.old) result tokens.new }
    {
        if is_others(tokens.kind()) {
            let word = tokens.any()?;
            Ok(Choice::Others(word))
        } else {
            let left = self.simple(tokens)?;
            self.choice_after(tokens, left)
        }
    }

    /// Further choices behind these.
    pub fn more_choices(
        &self,
        tokens: &mut Tokens<'_>,
        mut found: Items<Choice>,
    ) -> Result<Items<Choice>, Stop>
        requires { Nests self.now.turns self.now.depth (F.pre self.now.inner) (F.post self.now.inner) }
        ensures { Reads (spec.more_choices self.now.turns (spec.simple_at self.now.turns self.now.depth) found tokens.old) result tokens.new }
    {
        'turns: for _turn in 0..self.turns {
            if !tokens.eat(Kind::Delimiter(Delimiter::Bar)) {
                return Ok(found);
            }
            let choice = self.choice(tokens)?;
            found.push(choice)?;
        }
        Err(Stop::Bound)
    }

    /// Choices of which this is the first.
    #[tactic(auto, unfolding(crate::specs::Reading::choices_from))]
    pub fn choices_from(
        &self,
        tokens: &mut Tokens<'_>,
        first: Choice,
    ) -> Result<Items<Choice>, Stop>
        requires { Nests self.now.turns self.now.depth (F.pre self.now.inner) (F.post self.now.inner) }
        ensures { Reads (spec.choices_from self.now.turns (spec.simple_at self.now.turns self.now.depth) first tokens.old) result tokens.new }
    {
        let mut found = Items::new(self.alloc);
        found.push(first)?;
        self.more_choices(tokens, found)
    }

    #[tactic(auto, unfolding(crate::specs::Reading::choices))]
    pub fn choices(&self, tokens: &mut Tokens<'_>) -> Result<Items<Choice>, Stop>
        requires { Nests self.now.turns self.now.depth (F.pre self.now.inner) (F.post self.now.inner) }
        ensures { Reads (spec.choices self.now.turns (spec.simple_at self.now.turns self.now.depth) tokens.old) result tokens.new }
    {
        let first = self.choice(tokens)?;
        self.choices_from(tokens, first)
    }

    /// An element whose first choice is this one.
    #[tactic(auto, unfolding(crate::specs::Reading::item_from))]
    pub fn item_from(&self, tokens: &mut Tokens<'_>, first: Choice) -> Result<Item, Stop>
        requires { Nests self.now.turns self.now.depth (F.pre self.now.inner) (F.post self.now.inner) }
        ensures { Reads (spec.item_from self.now.turns (spec.simple_at self.now.turns self.now.depth) first tokens.old) result tokens.new }
    {
        let choices = self.choices_from(tokens, first)?;
        tokens.word(Kind::Delimiter(Delimiter::Arrow))?;
        let value = self.expression(tokens)?;
        Ok(Item { choices, value })
    }

    /// An element without choices that begins with this simple expression.
    #[tactic(auto, unfolding(crate::specs::Reading::positional))]
    pub fn positional(&self, tokens: &mut Tokens<'_>, place: u32, left: Expr) -> Result<Item, Stop>
        requires { Nests self.now.turns self.now.depth (F.pre self.now.inner) (F.post self.now.inner) }
        ensures { Reads (spec.positional self.now.turns (spec.simple_at self.now.turns self.now.depth) place left tokens.old) result tokens.new }
    {
        let value = self.expression_from(tokens, place, left)?;
        let choices = Items::new(self.alloc);
        Ok(Item { choices, value })
    }

    /// An element that begins with this simple expression, and not with a range.
    #[tactic(auto, unfolding(crate::specs::Reading::item_by))]
    pub fn item_by(&self, tokens: &mut Tokens<'_>, place: u32, left: Expr) -> Result<Item, Stop>
        requires { Nests self.now.turns self.now.depth (F.pre self.now.inner) (F.post self.now.inner) }
        ensures { Reads (spec.item_by self.now.turns (spec.simple_at self.now.turns self.now.depth) place left tokens.old) result tokens.new }
    {
        if ends_choice(tokens.kind()) {
            self.item_from(tokens, Choice::Value(left))
        } else {
            self.positional(tokens, place, left)
        }
    }

    /// An element that begins with this simple expression.
    #[tactic(auto, unfolding(crate::specs::Reading::item_after))]
    pub fn item_after(&self, tokens: &mut Tokens<'_>, place: u32, left: Expr) -> Result<Item, Stop>
        requires { Nests self.now.turns self.now.depth (F.pre self.now.inner) (F.post self.now.inner) }
        ensures { Reads (spec.item_after self.now.turns (spec.simple_at self.now.turns self.now.depth) place left tokens.old) result tokens.new }
    {
        match direction_of(tokens.kind()) {
            Some(direction) => {
                tokens.skip();
                let right = self.simple(tokens)?;
                self.item_from(tokens, Choice::Range(left, direction, right))
            }
            None => self.item_by(tokens, place, left),
        }
    }

    #[tactic(auto, unfolding(crate::specs::Reading::item))]
    pub fn item(&self, tokens: &mut Tokens<'_>) -> Result<Item, Stop>
        requires { Nests self.now.turns self.now.depth (F.pre self.now.inner) (F.post self.now.inner) }
        ensures { Reads (spec.item self.now.turns (spec.simple_at self.now.turns self.now.depth) tokens.old) result tokens.new }
    {
        if is_others(tokens.kind()) {
            let word = tokens.any()?;
            return self.item_from(tokens, Choice::Others(word));
        }
        let place = tokens.place();
        let left = self.simple(tokens)?;
        self.item_after(tokens, place, left)
    }

    /// Further elements behind these.
    pub fn items(
        &self,
        tokens: &mut Tokens<'_>,
        mut found: Items<Item>,
    ) -> Result<Items<Item>, Stop>
        requires { Nests self.now.turns self.now.depth (F.pre self.now.inner) (F.post self.now.inner) }
        ensures { Reads (spec.items self.now.turns (spec.simple_at self.now.turns self.now.depth) found tokens.old) result tokens.new }
    {
        'turns: for _turn in 0..self.turns {
            if !tokens.eat(Kind::Delimiter(Delimiter::Comma)) {
                return Ok(found);
            }
            let item = self.item(tokens)?;
            found.push(item)?;
        }
        Err(Stop::Bound)
    }
}
