//! Names, delays and waveforms (10.5.2).

ghost use Rattle.std.specs.Prelude.{◌≡◌};
ghost use Rattle.vhdl_reader_expressions.specs.Steps.{Reads};
ghost use Rattle.vhdl_reader_statements.specs.Reading as spec;

use crate::simple::Simple;
use sqlite_items::Items;
use vhdl_reader_expressions::{Stop, Tokens};
use vhdl_tokens::{Delimiter, Kind, Reserved};
use vhdl_tree::{Delay, Element, Name};

impl Simple {
    /// What follows the word `reject`.
    #[tactic(auto, unfolding(crate::specs::Reading::rejection))]
    pub fn rejection(&self, tokens: &mut Tokens<'_>) -> Result<Delay, Stop>
        ensures { Reads (spec.rejection self.now.bound tokens.old) result tokens.new }
    {
        let limit = self.expression_before(tokens, Reserved::Inertial)?;
        Ok(Delay::Reject(limit))
    }

    /// An inertial delay without a limit of its own, which may have no word.
    #[tactic(auto, unfolding(crate::specs::Reading::inertial))]
    pub fn inertial(&self, tokens: &mut Tokens<'_>) -> Result<Delay, Stop>
        ensures { Reads (spec.inertial tokens.old) result tokens.new }
    {
        tokens.eat(Kind::Word(Reserved::Inertial));
        Ok(Delay::Inertial)
    }

    /// A delay, if there is one.
    #[tactic(auto, unfolding(crate::specs::Reading::delay_within))]
    pub fn delay(&self, tokens: &mut Tokens<'_>) -> Result<Delay, Stop>
        ensures { Reads (spec.delay_within self.now.bound tokens.old) result tokens.new }
    {
        if tokens.eat(Kind::Word(Reserved::Transport)) {
            Ok(Delay::Transport)
        } else if tokens.eat(Kind::Word(Reserved::Reject)) {
            self.rejection(tokens)
        } else {
            self.inertial(tokens)
        }
    }

    #[tactic(auto, unfolding(crate::specs::Reading::element))]
    pub fn element(&self, tokens: &mut Tokens<'_>) -> Result<Element, Stop>
        ensures { Reads (spec.element self.now.bound tokens.old) result tokens.new }
    {
        let value = self.expression(tokens)?;
        let after = self.perhaps_expression(tokens, Reserved::After)?;
        Ok(Element { value, after })
    }

    /// Further elements behind these.
    pub fn elements(
        &self,
        tokens: &mut Tokens<'_>,
        mut found: Items<Element>,
    ) -> Result<Items<Element>, Stop>
        ensures { Reads (spec.elements self.now.bound found tokens.old) result tokens.new }
    {
        'turns: for _turn in 0..self.bound {
            if !tokens.eat(Kind::Delimiter(Delimiter::Comma)) {
                return Ok(found);
            }
            let element = self.element(tokens)?;
            found.push(element)?;
        }
        Err(Stop::Bound)
    }

    #[tactic(auto, unfolding(crate::specs::Reading::waveform_within))]
    pub fn waveform(&self, tokens: &mut Tokens<'_>) -> Result<Items<Element>, Stop>
        ensures { Reads (spec.waveform_within self.now.bound tokens.old) result tokens.new }
    {
        let first = self.element(tokens)?;
        let mut found = Items::new(self.alloc);
        found.push(first)?;
        self.elements(tokens, found)
    }

    /// Further names behind these.
    pub fn more_names(
        &self,
        tokens: &mut Tokens<'_>,
        mut found: Items<Name>,
    ) -> Result<Items<Name>, Stop>
        ensures { Reads (spec.more_names self.now.bound found tokens.old) result tokens.new }
    {
        'turns: for _turn in 0..self.bound {
            if !tokens.eat(Kind::Delimiter(Delimiter::Comma)) {
                return Ok(found);
            }
            let name = self.name(tokens)?;
            found.push(name)?;
        }
        Err(Stop::Bound)
    }

    #[tactic(auto, unfolding(crate::specs::Reading::names_within))]
    pub fn names(&self, tokens: &mut Tokens<'_>) -> Result<Items<Name>, Stop>
        ensures { Reads (spec.names_within self.now.bound tokens.old) result tokens.new }
    {
        let first = self.name(tokens)?;
        let mut found = Items::new(self.alloc);
        found.push(first)?;
        self.more_names(tokens, found)
    }
}
