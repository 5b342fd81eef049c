//! Declarations of constants, signals and variables (6.4.2), and attribute specifications (7.2).

ghost use Rattle.std.specs.Prelude.{◌≡◌};
ghost use Rattle.vhdl_reader_expressions.specs.Steps.{Reads};
ghost use Rattle.vhdl_reader_declarations.specs.Reading as spec;

use crate::declarations::Declarations;
use vhdl_reader_expressions::{Stop, Tokens};
use vhdl_tokens::{Delimiter, Kind, Reserved, Token};
use vhdl_tree::{AttributeSpecification, ConstantDeclaration, Expr, ObjectDeclaration};

impl Declarations {
    /// The value of a constant, from `:=` on.
    #[tactic(auto, unfolding(crate::specs::Reading::given))]
    fn given(&self, tokens: &mut Tokens<'_>) -> Result<Expr, Stop>
        ensures { Reads (spec.given self.now.bound tokens.old) result tokens.new }
    {
        tokens.word(Kind::Delimiter(Delimiter::Assign))?;
        let value = self.expression(tokens)?;
        tokens.word(Kind::Delimiter(Delimiter::Semicolon))?;
        Ok(value)
    }

    /// What follows the word `constant`.
    #[tactic(auto, unfolding(crate::specs::Reading::constant_declaration))]
    pub(crate) fn constant_declaration(
        &self,
        tokens: &mut Tokens<'_>,
    ) -> Result<ConstantDeclaration, Stop>
        ensures { Reads (spec.constant_declaration self.now.bound tokens.old) result tokens.new }
    {
        let names = self.identifiers(tokens)?;
        let subtype = self.typed(tokens)?;
        let value = self.given(tokens)?;
        Ok(ConstantDeclaration {
            names,
            subtype,
            value,
        })
    }

    /// What follows the word `signal` or `variable`.
    #[tactic(auto, unfolding(crate::specs::Reading::object_declaration))]
    pub(crate) fn object_declaration(
        &self,
        tokens: &mut Tokens<'_>,
    ) -> Result<ObjectDeclaration, Stop>
        ensures { Reads (spec.object_declaration self.now.bound tokens.old) result tokens.new }
    {
        let names = self.identifiers(tokens)?;
        let subtype = self.typed(tokens)?;
        let initial = self.default(tokens)?;
        tokens.word(Kind::Delimiter(Delimiter::Semicolon))?;
        Ok(ObjectDeclaration {
            names,
            subtype,
            initial,
        })
    }

    /// The architecture that has an attribute, from the word `of` on.
    #[tactic(auto, unfolding(crate::specs::Reading::attributed))]
    fn attributed(&self, tokens: &mut Tokens<'_>) -> Result<Token, Stop>
        ensures { Reads (spec.attributed self.now.bound tokens.old) result tokens.new }
    {
        tokens.word(Kind::Word(Reserved::Of))?;
        let name = tokens.token(Kind::Identifier)?;
        tokens.word(Kind::Delimiter(Delimiter::Colon))?;
        tokens.word(Kind::Word(Reserved::Architecture))?;
        Ok(name)
    }

    /// What follows the word `attribute`.
    #[tactic(auto, unfolding(crate::specs::Reading::attribute_specification))]
    pub(crate) fn attribute_specification(
        &self,
        tokens: &mut Tokens<'_>,
    ) -> Result<AttributeSpecification, Stop>
        ensures { Reads (spec.attribute_specification self.now.bound tokens.old) result tokens.new }
    {
        let attribute = tokens.token(Kind::Identifier)?;
        let architecture = self.attributed(tokens)?;
        tokens.word(Kind::Word(Reserved::Is))?;
        let value = self.expression(tokens)?;
        tokens.word(Kind::Delimiter(Delimiter::Semicolon))?;
        Ok(AttributeSpecification {
            attribute,
            architecture,
            value,
        })
    }
}
