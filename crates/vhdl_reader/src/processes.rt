//! Processes (11.3).

ghost use Rattle.std.specs.Prelude.{◌≡◌};
ghost use Rattle.vhdl_reader_expressions.specs.Steps.{Reads};
ghost use Rattle.vhdl_reader.specs.Reading as spec;

use crate::units::Units;
use vhdl_reader_expressions::{Stop, Tokens};
use vhdl_tokens::{Delimiter, Kind, Reserved, Token};
use vhdl_tree::{ConcurrentBody, Process, Sensitivity};

impl Units {
    /// The names of a sensitivity list.
    #[tactic(auto, unfolding(crate::specs::Reading::sensitivity_names))]
    fn sensitivity_names(&self, tokens: &mut Tokens<'_>) -> Result<Sensitivity, Stop>
        ensures { Reads (spec.sensitivity_names self.now.bound tokens.old) result tokens.new }
    {
        let names = self.names(tokens)?;
        tokens.word(Kind::Delimiter(Delimiter::RightParen))?;
        Ok(Sensitivity::Names(names))
    }

    /// What follows the word `all`.
    #[tactic(auto, unfolding(crate::specs::Reading::sensitivity_all))]
    fn sensitivity_all(&self, tokens: &mut Tokens<'_>) -> Result<Sensitivity, Stop>
        ensures { Reads (spec.sensitivity_all self.now.bound tokens.old) result tokens.new }
    {
        tokens.word(Kind::Delimiter(Delimiter::RightParen))?;
        Ok(Sensitivity::All)
    }

    /// What follows the bracket behind the word `process`.
    #[tactic(auto, unfolding(crate::specs::Reading::sensitivity_list))]
    fn sensitivity_list(&self, tokens: &mut Tokens<'_>) -> Result<Sensitivity, Stop>
        ensures { Reads (spec.sensitivity_list self.now.bound tokens.old) result tokens.new }
    {
        if tokens.eat(Kind::Word(Reserved::All)) {
            self.sensitivity_all(tokens)
        } else {
            self.sensitivity_names(tokens)
        }
    }

    /// A sensitivity list, if there is one.
    #[tactic(auto, unfolding(crate::specs::Reading::sensitivity))]
    fn sensitivity(&self, tokens: &mut Tokens<'_>) -> Result<Sensitivity, Stop>
        ensures { Reads (spec.sensitivity self.now.bound tokens.old) result tokens.new }
    {
        if tokens.eat(Kind::Delimiter(Delimiter::LeftParen)) {
            self.sensitivity_list(tokens)
        } else {
            Ok(Sensitivity::Unlisted)
        }
    }

    /// A sensitivity list, and the word `is` where it stands.
    #[tactic(auto, unfolding(crate::specs::Reading::process_head))]
    fn process_head(&self, tokens: &mut Tokens<'_>) -> Result<Sensitivity, Stop>
        ensures { Reads (spec.process_head self.now.bound tokens.old) result tokens.new }
    {
        let sensitivity = self.sensitivity(tokens)?;
        let _is = tokens.optional(Kind::Word(Reserved::Is))?;
        Ok(sensitivity)
    }

    /// The end of a process.
    #[tactic(auto, unfolding(crate::specs::Reading::process_end))]
    fn process_end(&self, tokens: &mut Tokens<'_>) -> Result<Option<Token>, Stop>
        ensures { Reads (spec.process_end self.now.bound tokens.old) result tokens.new }
    {
        tokens.word(Kind::Word(Reserved::End))?;
        let _postponed = tokens.optional(Kind::Word(Reserved::Postponed))?;
        tokens.word(Kind::Word(Reserved::Process))?;
        let name = tokens.optional(Kind::Identifier)?;
        tokens.word(Kind::Delimiter(Delimiter::Semicolon))?;
        Ok(name)
    }

    /// What follows the word `process`.
    #[tactic(auto, unfolding(crate::specs::Reading::process))]
    pub(crate) fn process(
        &self,
        tokens: &mut Tokens<'_>,
        postponed: bool,
    ) -> Result<ConcurrentBody, Stop>
        ensures { Reads (spec.process self.now.bound postponed tokens.old) result tokens.new }
    {
        let sensitivity = self.process_head(tokens)?;
        let declarations = self.process_declarations(tokens)?;
        tokens.word(Kind::Word(Reserved::Begin))?;
        let statements = self.statements(tokens)?;
        let end_name = self.process_end(tokens)?;
        Ok(ConcurrentBody::Process(Process {
            postponed,
            sensitivity,
            declarations,
            statements,
            end_name,
        }))
    }
}
