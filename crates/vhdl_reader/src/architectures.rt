//! Architectures and context clauses (3.3, 12.4, 13.2).

ghost use Rattle.std.specs.Prelude.{◌≡◌};
ghost use Rattle.vhdl_reader_expressions.specs.Steps.{Reads};
ghost use Rattle.vhdl_reader.specs.Reading as spec;

use crate::tables::is_all;
use crate::units::Units;
use sqlite_items::Items;
use vhdl_reader_expressions::{Stop, Tokens};
use vhdl_tokens::{Delimiter, Kind, Reserved, Token};
use vhdl_tree::{Architecture, Concurrent, ContextClause, Use};

impl Units {
    /// The name of an architecture, from the word `architecture` on.
    #[tactic(auto, unfolding(crate::specs::Reading::architecture_head))]
    fn architecture_head(&self, tokens: &mut Tokens<'_>) -> Result<Token, Stop>
        ensures { Reads (spec.architecture_head self.now.bound tokens.old) result tokens.new }
    {
        tokens.word(Kind::Word(Reserved::Architecture))?;
        tokens.token(Kind::Identifier)
    }

    /// The entity of an architecture, from the word `of` up to the word `is`.
    #[tactic(auto, unfolding(crate::specs::Reading::architecture_of))]
    fn architecture_of(&self, tokens: &mut Tokens<'_>) -> Result<Token, Stop>
        ensures { Reads (spec.architecture_of self.now.bound tokens.old) result tokens.new }
    {
        tokens.word(Kind::Word(Reserved::Of))?;
        let name = tokens.token(Kind::Identifier)?;
        tokens.word(Kind::Word(Reserved::Is))?;
        Ok(name)
    }

    /// The statements of an architecture, from the word `begin` on.
    #[tactic(auto, unfolding(crate::specs::Reading::architecture_body))]
    fn architecture_body(&self, tokens: &mut Tokens<'_>) -> Result<Items<Concurrent>, Stop>
        ensures { Reads (spec.architecture_body self.now.bound tokens.old) result tokens.new }
    {
        tokens.word(Kind::Word(Reserved::Begin))?;
        self.concurrents(tokens, Items::new(self.alloc))
    }

    /// The end of an architecture.
    #[tactic(auto, unfolding(crate::specs::Reading::architecture_end))]
    fn architecture_end(&self, tokens: &mut Tokens<'_>) -> Result<Option<Token>, Stop>
        ensures { Reads (spec.architecture_end self.now.bound tokens.old) result tokens.new }
    {
        tokens.word(Kind::Word(Reserved::End))?;
        let _class = tokens.optional(Kind::Word(Reserved::Architecture))?;
        let name = tokens.optional(Kind::Identifier)?;
        tokens.word(Kind::Delimiter(Delimiter::Semicolon))?;
        Ok(name)
    }

    /// An architecture.
    #[tactic(auto, unfolding(crate::specs::Reading::architecture))]
    pub(crate) fn architecture(&self, tokens: &mut Tokens<'_>) -> Result<Architecture, Stop>
        ensures { Reads (spec.architecture self.now.bound tokens.old) result tokens.new }
    {
        let line = tokens.line();
        let name = self.architecture_head(tokens)?;
        let entity = self.architecture_of(tokens)?;
        let declarations = self.declarations(tokens)?;
        let statements = self.architecture_body(tokens)?;
        let end_name = self.architecture_end(tokens)?;
        Ok(Architecture {
            line,
            name,
            entity,
            declarations,
            statements,
            end_name,
        })
    }

    /// An identifier, or the word `all`.
    #[tactic(auto, unfolding(crate::specs::Reading::suffix))]
    fn suffix(&self, tokens: &mut Tokens<'_>) -> Result<Token, Stop>
        ensures { Reads (spec.suffix self.now.bound tokens.old) result tokens.new }
    {
        if is_all(tokens.kind()) {
            tokens.token(Kind::Word(Reserved::All))
        } else {
            tokens.token(Kind::Identifier)
        }
    }

    /// An identifier, and the dot behind it.
    #[tactic(auto, unfolding(crate::specs::Reading::prefix))]
    fn prefix(&self, tokens: &mut Tokens<'_>) -> Result<Token, Stop>
        ensures { Reads (spec.prefix self.now.bound tokens.old) result tokens.new }
    {
        let identifier = tokens.token(Kind::Identifier)?;
        tokens.word(Kind::Delimiter(Delimiter::Dot))?;
        Ok(identifier)
    }

    /// What follows the word `use`.
    #[tactic(auto, unfolding(crate::specs::Reading::use_clause))]
    fn use_clause(&self, tokens: &mut Tokens<'_>) -> Result<ContextClause, Stop>
        ensures { Reads (spec.use_clause self.now.bound tokens.old) result tokens.new }
    {
        let library = self.prefix(tokens)?;
        let package = self.prefix(tokens)?;
        let suffix = self.suffix(tokens)?;
        tokens.word(Kind::Delimiter(Delimiter::Semicolon))?;
        Ok(ContextClause::Use(Use {
            library,
            package,
            suffix,
        }))
    }

    /// What follows the word `library`.
    #[tactic(auto, unfolding(crate::specs::Reading::library_clause))]
    fn library_clause(&self, tokens: &mut Tokens<'_>) -> Result<ContextClause, Stop>
        ensures { Reads (spec.library_clause self.now.bound tokens.old) result tokens.new }
    {
        let names = self.identifiers(tokens)?;
        tokens.word(Kind::Delimiter(Delimiter::Semicolon))?;
        Ok(ContextClause::Library(names))
    }

    /// An item of a context clause.
    #[tactic(auto, unfolding(crate::specs::Reading::context))]
    pub(crate) fn context(&self, tokens: &mut Tokens<'_>) -> Result<ContextClause, Stop>
        ensures { Reads (spec.context self.now.bound tokens.old) result tokens.new }
    {
        if tokens.eat(Kind::Word(Reserved::Library)) {
            self.library_clause(tokens)
        } else if tokens.eat(Kind::Word(Reserved::Use)) {
            self.use_clause(tokens)
        } else {
            Err(Stop::Syntax)
        }
    }
}
