//! The readers of declarations, for the readers of all that holds them.

ghost use Rattle.std.specs.Prelude.{◌≡◌};
ghost use Rattle.vhdl_reader_expressions.specs.Steps.{Reads};
ghost use Rattle.vhdl_reader_declarations.specs.Reading as spec;
ghost use Rattle.vhdl_reader_expressions.specs.Reading.{expression_within, bounds_within};

use sqlite_items::Items;
use std::alloc::Global;
use vhdl_reader_expressions::{Readers, Stop, Tokens};
use vhdl_tokens::{Delimiter, Kind, Token};
use vhdl_tree::{Bounds, Expr};

/// The readers of declarations, with one bound on the turns of their loops and on what expressions need. A bound
/// above the number of tokens is never used up.
#[derive(Clone, Copy)]
pub struct Declarations {
    pub alloc: Global,
    pub bound: usize,
}

impl Declarations {
    /// An expression.
    pub(crate) fn expression(&self, tokens: &mut Tokens<'_>) -> Result<Expr, Stop>
        ensures { Reads (expression_within self.now.bound tokens.old) result tokens.new }
    {
        Readers {
            alloc: self.alloc,
            bound: self.bound,
        }
        .expression(tokens)
    }

    /// A discrete range.
    pub(crate) fn bounds(&self, tokens: &mut Tokens<'_>) -> Result<Bounds, Stop>
        ensures { Reads (bounds_within self.now.bound tokens.old) result tokens.new }
    {
        Readers {
            alloc: self.alloc,
            bound: self.bound,
        }
        .bounds(tokens)
    }

    /// Further identifiers behind these.
    fn more_identifiers(
        &self,
        tokens: &mut Tokens<'_>,
        mut found: Items<Token>,
    ) -> Result<Items<Token>, Stop>
        ensures { Reads (spec.more_identifiers self.now.bound found tokens.old) result tokens.new }
    {
        'turns: for _turn in 0..self.bound {
            if !tokens.eat(Kind::Delimiter(Delimiter::Comma)) {
                return Ok(found);
            }
            let identifier = tokens.token(Kind::Identifier)?;
            found.push(identifier)?;
        }
        Err(Stop::Bound)
    }

    /// Identifiers, with `,` between them (6.4.2.1).
    #[tactic(auto, unfolding(crate::specs::Reading::identifiers))]
    pub fn identifiers(&self, tokens: &mut Tokens<'_>) -> Result<Items<Token>, Stop>
        ensures { Reads (spec.identifiers self.now.bound tokens.old) result tokens.new }
    {
        let first = tokens.token(Kind::Identifier)?;
        let mut found = Items::new(self.alloc);
        found.push(first)?;
        self.more_identifiers(tokens, found)
    }

    /// The value behind `:=`, if there is one.
    #[tactic(auto, unfolding(crate::specs::Reading::default))]
    pub(crate) fn default(&self, tokens: &mut Tokens<'_>) -> Result<Option<Expr>, Stop>
        ensures { Reads (spec.default self.now.bound tokens.old) result tokens.new }
    {
        if !tokens.eat(Kind::Delimiter(Delimiter::Assign)) {
            return Ok(None);
        }
        let value = self.expression(tokens)?;
        Ok(Some(value))
    }
}
