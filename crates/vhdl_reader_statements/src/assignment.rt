//! Assignments (10.5, 10.6).

ghost use Rattle.std.specs.Prelude.{◌≡◌};
ghost use Rattle.vhdl_reader_expressions.specs.Steps.{Reads};
ghost use Rattle.vhdl_reader_expressions.specs.Reading as expressions;
ghost use Rattle.vhdl_reader_statements.specs.Reading as spec;

use crate::simple::Simple;
use vhdl_reader_expressions::{Readers, Stop, Tokens};
use vhdl_tokens::{Delimiter, Kind, Token};
use vhdl_tree::{Body, Name, SignalAssignment, VariableAssignment};

impl Simple {
    pub fn name_from(&self, tokens: &mut Tokens<'_>, identifier: Token) -> Result<Name, Stop>
        ensures { Reads (expressions.name_from_within self.now.bound identifier tokens.old) result tokens.new }
    {
        Readers {
            alloc: self.alloc,
            bound: self.bound,
        }
        .name_from(tokens, identifier)
    }

    /// What follows the target and `<=`.
    #[tactic(auto, unfolding(crate::specs::Reading::signal_assignment))]
    pub fn signal_assignment(&self, tokens: &mut Tokens<'_>, target: Name) -> Result<Body, Stop>
        ensures { Reads (spec.signal_assignment self.now.bound target tokens.old) result tokens.new }
    {
        let delay = self.delay(tokens)?;
        let waveform = self.waveform(tokens)?;
        tokens.word(Kind::Delimiter(Delimiter::Semicolon))?;
        Ok(Body::Signal(SignalAssignment {
            target,
            delay,
            waveform,
        }))
    }

    /// What follows the target and `:=`.
    #[tactic(auto, unfolding(crate::specs::Reading::variable_assignment))]
    pub fn variable_assignment(&self, tokens: &mut Tokens<'_>, target: Name) -> Result<Body, Stop>
        ensures { Reads (spec.variable_assignment self.now.bound target tokens.old) result tokens.new }
    {
        let value = self.expression(tokens)?;
        tokens.word(Kind::Delimiter(Delimiter::Semicolon))?;
        Ok(Body::Variable(VariableAssignment { target, value }))
    }

    /// What follows the target.
    #[tactic(auto, unfolding(crate::specs::Reading::assignment_to))]
    pub fn assignment_to(&self, tokens: &mut Tokens<'_>, target: Name) -> Result<Body, Stop>
        ensures { Reads (spec.assignment_to self.now.bound target tokens.old) result tokens.new }
    {
        if tokens.eat(Kind::Delimiter(Delimiter::LessEqual)) {
            self.signal_assignment(tokens, target)
        } else if tokens.eat(Kind::Delimiter(Delimiter::Assign)) {
            self.variable_assignment(tokens, target)
        } else {
            Err(Stop::Syntax)
        }
    }

    /// An assignment whose target begins with this identifier.
    #[tactic(auto, unfolding(crate::specs::Reading::assignment_from))]
    pub fn assignment_from(&self, tokens: &mut Tokens<'_>, identifier: Token) -> Result<Body, Stop>
        ensures { Reads (spec.assignment_from self.now.bound identifier tokens.old) result tokens.new }
    {
        let target = self.name_from(tokens, identifier)?;
        self.assignment_to(tokens, target)
    }

    #[tactic(auto, unfolding(crate::specs::Reading::assignment))]
    pub fn assignment(&self, tokens: &mut Tokens<'_>) -> Result<Body, Stop>
        ensures { Reads (spec.assignment self.now.bound tokens.old) result tokens.new }
    {
        let identifier = tokens.token(Kind::Identifier)?;
        self.assignment_from(tokens, identifier)
    }
}
