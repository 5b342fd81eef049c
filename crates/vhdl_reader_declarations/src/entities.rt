//! Entities (3.2).

ghost use Rattle.std.specs.Prelude.{◌≡◌};
ghost use Rattle.vhdl_reader_expressions.specs.Steps.{Reads};
ghost use Rattle.vhdl_reader_declarations.specs.Reading as spec;

use crate::declarations::Declarations;
use vhdl_reader_expressions::{Stop, Tokens};
use vhdl_tokens::{Delimiter, Kind, Reserved, Token};
use vhdl_tree::Entity;

impl Declarations {
    /// The name of an entity, from the word `entity` up to the word `is`.
    #[tactic(auto, unfolding(crate::specs::Reading::entity_name))]
    fn entity_name(&self, tokens: &mut Tokens<'_>) -> Result<Token, Stop>
        ensures { Reads (spec.entity_name self.now.bound tokens.old) result tokens.new }
    {
        tokens.word(Kind::Word(Reserved::Entity))?;
        let name = tokens.token(Kind::Identifier)?;
        tokens.word(Kind::Word(Reserved::Is))?;
        Ok(name)
    }

    /// The end of an entity.
    #[tactic(auto, unfolding(crate::specs::Reading::entity_end))]
    fn entity_end(&self, tokens: &mut Tokens<'_>) -> Result<Option<Token>, Stop>
        ensures { Reads (spec.entity_end self.now.bound tokens.old) result tokens.new }
    {
        tokens.word(Kind::Word(Reserved::End))?;
        let _class = tokens.optional(Kind::Word(Reserved::Entity))?;
        let name = tokens.optional(Kind::Identifier)?;
        tokens.word(Kind::Delimiter(Delimiter::Semicolon))?;
        Ok(name)
    }

    /// An entity declaration (3.2).
    #[tactic(auto, unfolding(crate::specs::Reading::entity))]
    pub fn entity(&self, tokens: &mut Tokens<'_>) -> Result<Entity, Stop>
        ensures { Reads (spec.entity self.now.bound tokens.old) result tokens.new }
    {
        let line = tokens.line();
        let name = self.entity_name(tokens)?;
        let generics = self.generics(tokens)?;
        let ports = self.ports(tokens)?;
        let end_name = self.entity_end(tokens)?;
        Ok(Entity {
            line,
            name,
            generics,
            ports,
            end_name,
        })
    }
}
