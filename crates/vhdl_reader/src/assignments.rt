//! Concurrent signal assignments (11.6).

ghost use Rattle.std.specs.Prelude.{◌≡◌};
ghost use Rattle.vhdl_reader_expressions.specs.Steps.{Reads};
ghost use Rattle.vhdl_reader.specs.Reading as spec;

use crate::units::Units;
use sqlite_items::Items;
use vhdl_reader_expressions::{Stop, Tokens};
use vhdl_tokens::{Delimiter, Kind, Reserved, Token};
use vhdl_tree::{Alternative, ConcurrentAssignment, ConcurrentBody, Expr, Name};

/// The conditions of an assignment: those with a waveform behind them, and the last one where it stands alone.
#[derive(Drop)]
pub struct Conditions {
    pub alternatives: Items<Alternative>,
    pub condition: Option<Expr>,
}

impl Units {
    /// Conditions behind these alternatives.
    fn conditions(
        &self,
        tokens: &mut Tokens<'_>,
        mut found: Items<Alternative>,
    ) -> Result<Conditions, Stop>
        ensures { Reads (spec.conditions self.now.bound found tokens.old) result tokens.new }
    {
        'turns: for _turn in 0..self.bound {
            if !tokens.eat(Kind::Word(Reserved::When)) {
                return Ok(Conditions {
                    alternatives: found,
                    condition: None,
                });
            }
            let condition = self.expression(tokens)?;
            if !tokens.eat(Kind::Word(Reserved::Else)) {
                return Ok(Conditions {
                    alternatives: found,
                    condition: Some(condition),
                });
            }
            let otherwise = self.waveform(tokens)?;
            found.push(Alternative {
                condition,
                otherwise,
            })?;
        }
        Err(Stop::Bound)
    }

    /// What follows the target of an assignment.
    #[tactic(auto, unfolding(crate::specs::Reading::assignment_to))]
    fn assignment_to(
        &self,
        tokens: &mut Tokens<'_>,
        postponed: bool,
        target: Name,
    ) -> Result<ConcurrentBody, Stop>
        ensures { Reads (spec.assignment_to self.now.bound postponed target tokens.old) result tokens.new }
    {
        tokens.word(Kind::Delimiter(Delimiter::LessEqual))?;
        let delay = self.delay(tokens)?;
        let waveform = self.waveform(tokens)?;
        let Conditions {
            alternatives,
            condition,
        } = self.conditions(tokens, Items::new(self.alloc))?;
        tokens.word(Kind::Delimiter(Delimiter::Semicolon))?;
        Ok(ConcurrentBody::Assignment(ConcurrentAssignment {
            postponed,
            target,
            delay,
            waveform,
            alternatives,
            condition,
        }))
    }

    /// An assignment whose target begins with this identifier.
    #[tactic(auto, unfolding(crate::specs::Reading::assignment_from))]
    pub(crate) fn assignment_from(
        &self,
        tokens: &mut Tokens<'_>,
        postponed: bool,
        identifier: Token,
    ) -> Result<ConcurrentBody, Stop>
        ensures { Reads (spec.assignment_from self.now.bound postponed identifier tokens.old) result tokens.new }
    {
        let target = self.name_from(tokens, identifier)?;
        self.assignment_to(tokens, postponed, target)
    }

    /// An assignment.
    #[tactic(auto, unfolding(crate::specs::Reading::assignment))]
    pub(crate) fn assignment(
        &self,
        tokens: &mut Tokens<'_>,
        postponed: bool,
    ) -> Result<ConcurrentBody, Stop>
        ensures { Reads (spec.assignment self.now.bound postponed tokens.old) result tokens.new }
    {
        let identifier = tokens.token(Kind::Identifier)?;
        self.assignment_from(tokens, postponed, identifier)
    }
}
