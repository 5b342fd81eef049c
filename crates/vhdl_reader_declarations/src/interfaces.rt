//! Generics and ports (6.5.6).

ghost use Rattle.std.specs.Prelude.{◌≡◌};
ghost use Rattle.vhdl_reader_expressions.specs.Steps.{Reads};
ghost use Rattle.vhdl_reader_declarations.specs.Reading as spec;

use crate::declarations::Declarations;
use crate::tables::mode_of;
use sqlite_items::Items;
use vhdl_reader_expressions::{Stop, Tokens};
use vhdl_tokens::{Delimiter, Kind, Reserved};
use vhdl_tree::{Generic, Mode, Port, Subtype};

impl Declarations {
    /// The subtype of a generic, from its colon on.
    #[tactic(auto, unfolding(crate::specs::Reading::generic_subtype))]
    fn generic_subtype(&self, tokens: &mut Tokens<'_>) -> Result<Subtype, Stop>
        ensures { Reads (spec.generic_subtype self.now.bound tokens.old) result tokens.new }
    {
        tokens.word(Kind::Delimiter(Delimiter::Colon))?;
        let _mode = tokens.optional(Kind::Word(Reserved::In))?;
        self.subtype(tokens)
    }

    /// A declaration of generics.
    #[tactic(auto, unfolding(crate::specs::Reading::generic))]
    fn generic(&self, tokens: &mut Tokens<'_>) -> Result<Generic, Stop>
        ensures { Reads (spec.generic self.now.bound tokens.old) result tokens.new }
    {
        let _class = tokens.optional(Kind::Word(Reserved::Constant))?;
        let names = self.identifiers(tokens)?;
        let subtype = self.generic_subtype(tokens)?;
        let default = self.default(tokens)?;
        Ok(Generic {
            names,
            subtype,
            default,
        })
    }

    /// Further generics behind these.
    fn more_generics(
        &self,
        tokens: &mut Tokens<'_>,
        mut found: Items<Generic>,
    ) -> Result<Items<Generic>, Stop>
        ensures { Reads (spec.more_generics self.now.bound found tokens.old) result tokens.new }
    {
        'turns: for _turn in 0..self.bound {
            if !tokens.eat(Kind::Delimiter(Delimiter::Semicolon)) {
                return Ok(found);
            }
            let generic = self.generic(tokens)?;
            found.push(generic)?;
        }
        Err(Stop::Bound)
    }

    /// What follows the word `generic`.
    #[tactic(auto, unfolding(crate::specs::Reading::generic_list))]
    fn generic_list(&self, tokens: &mut Tokens<'_>) -> Result<Items<Generic>, Stop>
        ensures { Reads (spec.generic_list self.now.bound tokens.old) result tokens.new }
    {
        tokens.word(Kind::Delimiter(Delimiter::LeftParen))?;
        let first = self.generic(tokens)?;
        let mut found = Items::new(self.alloc);
        found.push(first)?;
        let all = self.more_generics(tokens, found)?;
        tokens.word(Kind::Delimiter(Delimiter::RightParen))?;
        tokens.word(Kind::Delimiter(Delimiter::Semicolon))?;
        Ok(all)
    }

    /// The generics of an entity, if it has some.
    #[tactic(auto, unfolding(crate::specs::Reading::generics))]
    pub(crate) fn generics(&self, tokens: &mut Tokens<'_>) -> Result<Items<Generic>, Stop>
        ensures { Reads (spec.generics self.now.bound tokens.old) result tokens.new }
    {
        if tokens.eat(Kind::Word(Reserved::Generic)) {
            self.generic_list(tokens)
        } else {
            Ok(Items::new(self.alloc))
        }
    }

    /// The mode of a port. Without one it is `in`.
    #[tactic(auto, unfolding(crate::specs::Reading::mode))]
    fn mode(&self, tokens: &mut Tokens<'_>) -> Result<Mode, Stop>
        ensures { Reads (spec.mode self.now.bound tokens.old) result tokens.new }
    {
        match mode_of(tokens.kind()) {
            Some(mode) => {
                tokens.skip();
                Ok(mode)
            }
            None => Ok(Mode::In),
        }
    }

    /// The mode of a port, from its colon on.
    #[tactic(auto, unfolding(crate::specs::Reading::port_mode))]
    fn port_mode(&self, tokens: &mut Tokens<'_>) -> Result<Mode, Stop>
        ensures { Reads (spec.port_mode self.now.bound tokens.old) result tokens.new }
    {
        tokens.word(Kind::Delimiter(Delimiter::Colon))?;
        self.mode(tokens)
    }

    /// A declaration of ports.
    #[tactic(auto, unfolding(crate::specs::Reading::port))]
    fn port(&self, tokens: &mut Tokens<'_>) -> Result<Port, Stop>
        ensures { Reads (spec.port self.now.bound tokens.old) result tokens.new }
    {
        let _class = tokens.optional(Kind::Word(Reserved::Signal))?;
        let names = self.identifiers(tokens)?;
        let mode = self.port_mode(tokens)?;
        let subtype = self.subtype(tokens)?;
        let default = self.default(tokens)?;
        Ok(Port {
            names,
            mode,
            subtype,
            default,
        })
    }

    /// Further ports behind these.
    fn more_ports(
        &self,
        tokens: &mut Tokens<'_>,
        mut found: Items<Port>,
    ) -> Result<Items<Port>, Stop>
        ensures { Reads (spec.more_ports self.now.bound found tokens.old) result tokens.new }
    {
        'turns: for _turn in 0..self.bound {
            if !tokens.eat(Kind::Delimiter(Delimiter::Semicolon)) {
                return Ok(found);
            }
            let port = self.port(tokens)?;
            found.push(port)?;
        }
        Err(Stop::Bound)
    }

    /// What follows the word `port`.
    #[tactic(auto, unfolding(crate::specs::Reading::port_list))]
    fn port_list(&self, tokens: &mut Tokens<'_>) -> Result<Items<Port>, Stop>
        ensures { Reads (spec.port_list self.now.bound tokens.old) result tokens.new }
    {
        tokens.word(Kind::Delimiter(Delimiter::LeftParen))?;
        let first = self.port(tokens)?;
        let mut found = Items::new(self.alloc);
        found.push(first)?;
        let all = self.more_ports(tokens, found)?;
        tokens.word(Kind::Delimiter(Delimiter::RightParen))?;
        tokens.word(Kind::Delimiter(Delimiter::Semicolon))?;
        Ok(all)
    }

    /// The ports of an entity, if it has some.
    #[tactic(auto, unfolding(crate::specs::Reading::ports))]
    pub(crate) fn ports(&self, tokens: &mut Tokens<'_>) -> Result<Items<Port>, Stop>
        ensures { Reads (spec.ports self.now.bound tokens.old) result tokens.new }
    {
        if tokens.eat(Kind::Word(Reserved::Port)) {
            self.port_list(tokens)
        } else {
            Ok(Items::new(self.alloc))
        }
    }
}
