//! Declarative parts: the declarations of an architecture and of a process (3.3.2, 11.3).

ghost use Rattle.std.specs.Prelude.{◌≡◌};
ghost use Rattle.vhdl_reader_expressions.specs.Steps.{Reads};
ghost use Rattle.vhdl_reader_declarations.specs.Reading as spec;

use crate::declarations::Declarations;
use crate::tables::{begins_declaration, begins_process_declaration};
use sqlite_items::Items;
use vhdl_reader_expressions::{Stop, Tokens};
use vhdl_tokens::{Kind, Reserved};
use vhdl_tree::Declaration;

impl Declarations {
    /// A declaration of constants.
    #[tactic(auto, unfolding(crate::specs::Reading::constant))]
    fn constant(&self, tokens: &mut Tokens<'_>) -> Result<Declaration, Stop>
        ensures { Reads (spec.constant self.now.bound tokens.old) result tokens.new }
    {
        if tokens.eat(Kind::Word(Reserved::Constant)) {
            let declaration = self.constant_declaration(tokens)?;
            Ok(Declaration::Constant(declaration))
        } else {
            Err(Stop::Syntax)
        }
    }

    /// The same, or one of a subtype.
    #[tactic(auto, unfolding(crate::specs::Reading::subtype_or_constant))]
    fn subtype_or_constant(&self, tokens: &mut Tokens<'_>) -> Result<Declaration, Stop>
        ensures { Reads (spec.subtype_or_constant self.now.bound tokens.old) result tokens.new }
    {
        if tokens.eat(Kind::Word(Reserved::Subtype)) {
            let declaration = self.subtype_declaration(tokens)?;
            Ok(Declaration::Subtype(declaration))
        } else {
            self.constant(tokens)
        }
    }

    /// The same, or one of a type.
    #[tactic(auto, unfolding(crate::specs::Reading::type_or_constant))]
    fn type_or_constant(&self, tokens: &mut Tokens<'_>) -> Result<Declaration, Stop>
        ensures { Reads (spec.type_or_constant self.now.bound tokens.old) result tokens.new }
    {
        if tokens.eat(Kind::Word(Reserved::Type_)) {
            let declaration = self.type_declaration(tokens)?;
            Ok(Declaration::Type(declaration))
        } else {
            self.subtype_or_constant(tokens)
        }
    }

    /// The same, or an attribute specification.
    #[tactic(auto, unfolding(crate::specs::Reading::attribute_or_type))]
    fn attribute_or_type(&self, tokens: &mut Tokens<'_>) -> Result<Declaration, Stop>
        ensures { Reads (spec.attribute_or_type self.now.bound tokens.old) result tokens.new }
    {
        if tokens.eat(Kind::Word(Reserved::Attribute)) {
            let declaration = self.attribute_specification(tokens)?;
            Ok(Declaration::Attribute(declaration))
        } else {
            self.type_or_constant(tokens)
        }
    }

    /// A declaration of an architecture.
    #[tactic(auto, unfolding(crate::specs::Reading::declaration))]
    fn declaration(&self, tokens: &mut Tokens<'_>) -> Result<Declaration, Stop>
        ensures { Reads (spec.declaration self.now.bound tokens.old) result tokens.new }
    {
        if tokens.eat(Kind::Word(Reserved::Signal)) {
            let declaration = self.object_declaration(tokens)?;
            Ok(Declaration::Signal(declaration))
        } else {
            self.attribute_or_type(tokens)
        }
    }

    /// A declaration of a process.
    #[tactic(auto, unfolding(crate::specs::Reading::process_declaration))]
    fn process_declaration(&self, tokens: &mut Tokens<'_>) -> Result<Declaration, Stop>
        ensures { Reads (spec.process_declaration self.now.bound tokens.old) result tokens.new }
    {
        if tokens.eat(Kind::Word(Reserved::Variable)) {
            let declaration = self.object_declaration(tokens)?;
            Ok(Declaration::Variable(declaration))
        } else {
            self.type_or_constant(tokens)
        }
    }

    /// Further declarations of an architecture behind these.
    fn more_declarations(
        &self,
        tokens: &mut Tokens<'_>,
        mut found: Items<Declaration>,
    ) -> Result<Items<Declaration>, Stop>
        ensures { Reads (spec.more_declarations self.now.bound found tokens.old) result tokens.new }
    {
        'turns: for _turn in 0..self.bound {
            if !begins_declaration(tokens.kind()) {
                return Ok(found);
            }
            let declaration = self.declaration(tokens)?;
            found.push(declaration)?;
        }
        Err(Stop::Bound)
    }

    /// The declarations of an architecture (3.3.2), up to the token that begins none.
    #[tactic(auto, unfolding(crate::specs::Reading::declarations))]
    pub fn declarations(&self, tokens: &mut Tokens<'_>) -> Result<Items<Declaration>, Stop>
        ensures { Reads (spec.declarations self.now.bound tokens.old) result tokens.new }
    {
        self.more_declarations(tokens, Items::new(self.alloc))
    }

    /// Further declarations of a process behind these.
    fn more_process_declarations(
        &self,
        tokens: &mut Tokens<'_>,
        mut found: Items<Declaration>,
    ) -> Result<Items<Declaration>, Stop>
        ensures { Reads (spec.more_process_declarations self.now.bound found tokens.old) result tokens.new }
    {
        'turns: for _turn in 0..self.bound {
            if !begins_process_declaration(tokens.kind()) {
                return Ok(found);
            }
            let declaration = self.process_declaration(tokens)?;
            found.push(declaration)?;
        }
        Err(Stop::Bound)
    }

    /// The declarations of a process (11.3), up to the token that begins none.
    #[tactic(auto, unfolding(crate::specs::Reading::process_declarations))]
    pub fn process_declarations(&self, tokens: &mut Tokens<'_>) -> Result<Items<Declaration>, Stop>
        ensures { Reads (spec.process_declarations self.now.bound tokens.old) result tokens.new }
    {
        self.more_process_declarations(tokens, Items::new(self.alloc))
    }
}
