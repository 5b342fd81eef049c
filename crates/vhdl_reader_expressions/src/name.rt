//! Names (8.1).

ghost use Rattle.std.specs.Prelude.{◌≡◌};
ghost use Rattle.vhdl_reader_expressions.specs.Steps.{Reads};
ghost use Rattle.vhdl_reader_expressions.specs.Reading as spec;
ghost use Rattle.vhdl_reader_expressions.specs.Nests.{Nests};

use crate::grammar::Grammar;
use crate::tables::{begins_part, direction_of, is_range_word};
use crate::{Stop, Tokens};
use sqlite_items::Items;
use std::alloc::Global;
use vhdl_tokens::{Delimiter, Kind, Token};
use vhdl_tree::{Expr, Name, Part};

impl<F: Fn(Global, usize, usize, &mut Tokens<'_>) -> Result<Expr, Stop>> Grammar<F> {
    /// What stands in a bracket behind a name, and begins with this simple expression.
    #[tactic(auto, unfolding(crate::specs::Reading::part_after))]
    pub fn part_after(&self, tokens: &mut Tokens<'_>, place: u32, left: Expr) -> Result<Part, Stop>
        requires { Nests self.now.turns self.now.depth (F.pre self.now.inner) (F.post self.now.inner) }
        ensures { Reads (spec.part_after self.now.turns (spec.simple_at self.now.turns self.now.depth) place left tokens.old) result tokens.new }
    {
        match direction_of(tokens.kind()) {
            Some(direction) => {
                tokens.skip();
                let right = self.simple(tokens)?;
                Ok(Part::Slice(left, direction, right))
            }
            None => {
                let value = self.expression_from(tokens, place, left)?;
                Ok(Part::Index(value))
            }
        }
    }

    /// What stands in a bracket behind a name.
    #[tactic(auto, unfolding(crate::specs::Reading::argument))]
    pub fn argument(&self, tokens: &mut Tokens<'_>) -> Result<Part, Stop>
        requires { Nests self.now.turns self.now.depth (F.pre self.now.inner) (F.post self.now.inner) }
        ensures { Reads (spec.argument self.now.turns (spec.simple_at self.now.turns self.now.depth) tokens.old) result tokens.new }
    {
        let place = tokens.place();
        let left = self.simple(tokens)?;
        self.part_after(tokens, place, left)
    }

    /// The word behind an apostrophe.
    #[tactic(auto, unfolding(crate::specs::Reading::attribute))]
    pub fn attribute(&self, tokens: &mut Tokens<'_>) -> Result<Part, Stop>
        requires { Nests self.now.turns self.now.depth (F.pre self.now.inner) (F.post self.now.inner) }
        ensures { Reads (spec.attribute self.now.turns (spec.simple_at self.now.turns self.now.depth) tokens.old) result tokens.new }
    {
        if is_range_word(tokens.kind()) {
            let word = tokens.any()?;
            Ok(Part::Attribute(word))
        } else {
            let word = tokens.token(Kind::Identifier)?;
            Ok(Part::Attribute(word))
        }
    }

    /// What follows the bracket behind a name.
    #[tactic(auto, unfolding(crate::specs::Reading::bracketed_part))]
    pub fn bracketed_part(&self, tokens: &mut Tokens<'_>) -> Result<Part, Stop>
        requires { Nests self.now.turns self.now.depth (F.pre self.now.inner) (F.post self.now.inner) }
        ensures { Reads (spec.bracketed_part self.now.turns (spec.simple_at self.now.turns self.now.depth) tokens.old) result tokens.new }
    {
        let part = self.argument(tokens)?;
        tokens.word(Kind::Delimiter(Delimiter::RightParen))?;
        Ok(part)
    }

    #[tactic(auto, unfolding(crate::specs::Reading::part))]
    pub fn part(&self, tokens: &mut Tokens<'_>) -> Result<Part, Stop>
        requires { Nests self.now.turns self.now.depth (F.pre self.now.inner) (F.post self.now.inner) }
        ensures { Reads (spec.part self.now.turns (spec.simple_at self.now.turns self.now.depth) tokens.old) result tokens.new }
    {
        if tokens.eat(Kind::Delimiter(Delimiter::LeftParen)) {
            self.bracketed_part(tokens)
        } else if tokens.eat(Kind::Delimiter(Delimiter::Tick)) {
            self.attribute(tokens)
        } else {
            Err(Stop::Syntax)
        }
    }

    /// Further parts behind these.
    pub fn parts(
        &self,
        tokens: &mut Tokens<'_>,
        mut found: Items<Part>,
    ) -> Result<Items<Part>, Stop>
        requires { Nests self.now.turns self.now.depth (F.pre self.now.inner) (F.post self.now.inner) }
        ensures { Reads (spec.parts self.now.turns (spec.simple_at self.now.turns self.now.depth) found tokens.old) result tokens.new }
    {
        'turns: for _turn in 0..self.turns {
            if !begins_part(tokens.kind()) {
                return Ok(found);
            }
            let part = self.part(tokens)?;
            found.push(part)?;
        }
        Err(Stop::Bound)
    }

    /// A name that begins with this identifier.
    #[tactic(auto, unfolding(crate::specs::Reading::name_from))]
    pub fn name_from(&self, tokens: &mut Tokens<'_>, identifier: Token) -> Result<Name, Stop>
        requires { Nests self.now.turns self.now.depth (F.pre self.now.inner) (F.post self.now.inner) }
        ensures { Reads (spec.name_from self.now.turns (spec.simple_at self.now.turns self.now.depth) identifier tokens.old) result tokens.new }
    {
        let parts = self.parts(tokens, Items::new(self.alloc))?;
        Ok(Name { identifier, parts })
    }

    #[tactic(auto, unfolding(crate::specs::Reading::name))]
    pub fn name(&self, tokens: &mut Tokens<'_>) -> Result<Name, Stop>
        requires { Nests self.now.turns self.now.depth (F.pre self.now.inner) (F.post self.now.inner) }
        ensures { Reads (spec.name self.now.turns (spec.simple_at self.now.turns self.now.depth) tokens.old) result tokens.new }
    {
        let identifier = tokens.token(Kind::Identifier)?;
        self.name_from(tokens, identifier)
    }
}
