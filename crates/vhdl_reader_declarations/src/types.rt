//! Declarations of types and subtypes (6.2, 6.3).

ghost use Rattle.std.specs.Prelude.{◌≡◌};
ghost use Rattle.vhdl_reader_expressions.specs.Steps.{Reads};
ghost use Rattle.vhdl_reader_declarations.specs.Reading as spec;

use crate::declarations::Declarations;
use crate::tables::is_character;
use sqlite_items::Items;
use vhdl_reader_expressions::{Stop, Tokens};
use vhdl_tokens::{Delimiter, Kind, Reserved, Token};
use vhdl_tree::{SubtypeDeclaration, TypeDeclaration};

impl Declarations {
    /// An enumeration literal: an identifier or a character.
    #[tactic(auto, unfolding(crate::specs::Reading::literal))]
    fn literal(&self, tokens: &mut Tokens<'_>) -> Result<Token, Stop>
        ensures { Reads (spec.literal self.now.bound tokens.old) result tokens.new }
    {
        if is_character(tokens.kind()) {
            tokens.token(Kind::Char)
        } else {
            tokens.token(Kind::Identifier)
        }
    }

    /// Further literals behind these.
    fn more_literals(
        &self,
        tokens: &mut Tokens<'_>,
        mut found: Items<Token>,
    ) -> Result<Items<Token>, Stop>
        ensures { Reads (spec.more_literals self.now.bound found tokens.old) result tokens.new }
    {
        'turns: for _turn in 0..self.bound {
            if !tokens.eat(Kind::Delimiter(Delimiter::Comma)) {
                return Ok(found);
            }
            let literal = self.literal(tokens)?;
            found.push(literal)?;
        }
        Err(Stop::Bound)
    }

    /// The literals of a type, in their brackets.
    #[tactic(auto, unfolding(crate::specs::Reading::literals))]
    fn literals(&self, tokens: &mut Tokens<'_>) -> Result<Items<Token>, Stop>
        ensures { Reads (spec.literals self.now.bound tokens.old) result tokens.new }
    {
        tokens.word(Kind::Delimiter(Delimiter::LeftParen))?;
        let first = self.literal(tokens)?;
        let mut found = Items::new(self.alloc);
        found.push(first)?;
        let all = self.more_literals(tokens, found)?;
        tokens.word(Kind::Delimiter(Delimiter::RightParen))?;
        Ok(all)
    }

    /// What follows the word `type`.
    #[tactic(auto, unfolding(crate::specs::Reading::type_declaration))]
    pub(crate) fn type_declaration(&self, tokens: &mut Tokens<'_>) -> Result<TypeDeclaration, Stop>
        ensures { Reads (spec.type_declaration self.now.bound tokens.old) result tokens.new }
    {
        let name = tokens.token(Kind::Identifier)?;
        tokens.word(Kind::Word(Reserved::Is))?;
        let literals = self.literals(tokens)?;
        tokens.word(Kind::Delimiter(Delimiter::Semicolon))?;
        Ok(TypeDeclaration { name, literals })
    }

    /// What follows the word `subtype`.
    #[tactic(auto, unfolding(crate::specs::Reading::subtype_declaration))]
    pub(crate) fn subtype_declaration(
        &self,
        tokens: &mut Tokens<'_>,
    ) -> Result<SubtypeDeclaration, Stop>
        ensures { Reads (spec.subtype_declaration self.now.bound tokens.old) result tokens.new }
    {
        let name = tokens.token(Kind::Identifier)?;
        tokens.word(Kind::Word(Reserved::Is))?;
        let subtype = self.subtype(tokens)?;
        tokens.word(Kind::Delimiter(Delimiter::Semicolon))?;
        Ok(SubtypeDeclaration { name, subtype })
    }
}
