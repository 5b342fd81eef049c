//! The readers of the crates below, and the reader of design files.

ghost use Rattle.std.specs.Prelude.{◌≡◌};
ghost use Rattle.vhdl_reader_expressions.specs.Steps.{Reads};
ghost use Rattle.vhdl_reader_expressions.specs.Reading.{expression_within, name_from_within};
ghost use Rattle.vhdl_reader_statements.specs.Reading.{delay_within, waveform_within, names_within, statements_within};
ghost use Rattle.vhdl_reader_declarations.specs.Reading as declarations;
ghost use Rattle.vhdl_reader.specs.Reading as spec;

use crate::tables::{begins_context, begins_unit, is_entity};
use sqlite_items::Items;
use std::alloc::Global;
use vhdl_reader_declarations::Declarations;
use vhdl_reader_expressions::{Readers, Stop, Tokens};
use vhdl_reader_statements::Statements;
use vhdl_tokens::Token;
use vhdl_tree::{
    ContextClause, Declaration, Delay, DesignFile, DesignUnit, Element, Entity, Expr, LibraryUnit,
    Name, Statement,
};

/// The readers of concurrent statements and design units, with one bound on the turns of their loops and on what
/// lower readers need. A bound above the number of tokens is never used up.
#[derive(Clone, Copy)]
pub struct Units {
    pub alloc: Global,
    pub bound: usize,
}

impl Units {
    /// An expression.
    pub(crate) fn expression(&self, tokens: &mut Tokens<'_>) -> Result<Expr, Stop>
        ensures { Reads (expression_within self.now.bound tokens.old) result tokens.new }
    {
        Readers {
            alloc: self.alloc,
            bound: self.bound,
        }
        .expression(tokens)
    }

    /// A name that begins with this identifier.
    pub(crate) fn name_from(&self, tokens: &mut Tokens<'_>, identifier: Token) -> Result<Name, Stop>
        ensures { Reads (name_from_within self.now.bound identifier tokens.old) result tokens.new }
    {
        Readers {
            alloc: self.alloc,
            bound: self.bound,
        }
        .name_from(tokens, identifier)
    }

    /// A delay mechanism, if there is one.
    pub(crate) fn delay(&self, tokens: &mut Tokens<'_>) -> Result<Delay, Stop>
        ensures { Reads (delay_within self.now.bound tokens.old) result tokens.new }
    {
        Statements {
            alloc: self.alloc,
            bound: self.bound,
        }
        .delay(tokens)
    }

    /// A waveform.
    pub(crate) fn waveform(&self, tokens: &mut Tokens<'_>) -> Result<Items<Element>, Stop>
        ensures { Reads (waveform_within self.now.bound tokens.old) result tokens.new }
    {
        Statements {
            alloc: self.alloc,
            bound: self.bound,
        }
        .waveform(tokens)
    }

    /// Names, with `,` between them.
    pub(crate) fn names(&self, tokens: &mut Tokens<'_>) -> Result<Items<Name>, Stop>
        ensures { Reads (names_within self.now.bound tokens.old) result tokens.new }
    {
        Statements {
            alloc: self.alloc,
            bound: self.bound,
        }
        .names(tokens)
    }

    /// Sequential statements.
    pub(crate) fn statements(&self, tokens: &mut Tokens<'_>) -> Result<Items<Statement>, Stop>
        ensures { Reads (statements_within self.now.bound tokens.old) result tokens.new }
    {
        Statements {
            alloc: self.alloc,
            bound: self.bound,
        }
        .statements(tokens)
    }

    /// Identifiers, with `,` between them.
    pub(crate) fn identifiers(&self, tokens: &mut Tokens<'_>) -> Result<Items<Token>, Stop>
        ensures { Reads (declarations.identifiers self.now.bound tokens.old) result tokens.new }
    {
        Declarations {
            alloc: self.alloc,
            bound: self.bound,
        }
        .identifiers(tokens)
    }

    /// The declarations of an architecture.
    pub(crate) fn declarations(&self, tokens: &mut Tokens<'_>) -> Result<Items<Declaration>, Stop>
        ensures { Reads (declarations.declarations self.now.bound tokens.old) result tokens.new }
    {
        Declarations {
            alloc: self.alloc,
            bound: self.bound,
        }
        .declarations(tokens)
    }

    /// The declarations of a process.
    pub(crate) fn process_declarations(
        &self,
        tokens: &mut Tokens<'_>,
    ) -> Result<Items<Declaration>, Stop>
        ensures { Reads (declarations.process_declarations self.now.bound tokens.old) result tokens.new }
    {
        Declarations {
            alloc: self.alloc,
            bound: self.bound,
        }
        .process_declarations(tokens)
    }

    /// An entity.
    pub(crate) fn entity(&self, tokens: &mut Tokens<'_>) -> Result<Entity, Stop>
        ensures { Reads (declarations.entity self.now.bound tokens.old) result tokens.new }
    {
        Declarations {
            alloc: self.alloc,
            bound: self.bound,
        }
        .entity(tokens)
    }

    /// An entity or an architecture.
    #[tactic(auto, unfolding(crate::specs::Reading::library_unit))]
    fn library_unit(&self, tokens: &mut Tokens<'_>) -> Result<LibraryUnit, Stop>
        ensures { Reads (spec.library_unit self.now.bound tokens.old) result tokens.new }
    {
        if is_entity(tokens.kind()) {
            let entity = self.entity(tokens)?;
            Ok(LibraryUnit::Entity(entity))
        } else {
            let architecture = self.architecture(tokens)?;
            Ok(LibraryUnit::Architecture(architecture))
        }
    }

    /// Further items of a context clause behind these.
    fn contexts(
        &self,
        tokens: &mut Tokens<'_>,
        mut found: Items<ContextClause>,
    ) -> Result<Items<ContextClause>, Stop>
        ensures { Reads (spec.contexts self.now.bound found tokens.old) result tokens.new }
    {
        'turns: for _turn in 0..self.bound {
            if !begins_context(tokens.kind()) {
                return Ok(found);
            }
            let context = self.context(tokens)?;
            found.push(context)?;
        }
        Err(Stop::Bound)
    }

    /// A design unit.
    #[tactic(auto, unfolding(crate::specs::Reading::unit))]
    fn unit(&self, tokens: &mut Tokens<'_>) -> Result<DesignUnit, Stop>
        ensures { Reads (spec.unit self.now.bound tokens.old) result tokens.new }
    {
        let context = self.contexts(tokens, Items::new(self.alloc))?;
        let unit = self.library_unit(tokens)?;
        Ok(DesignUnit { context, unit })
    }

    /// Further design units behind these.
    fn units(
        &self,
        tokens: &mut Tokens<'_>,
        mut found: Items<DesignUnit>,
    ) -> Result<Items<DesignUnit>, Stop>
        ensures { Reads (spec.units self.now.bound found tokens.old) result tokens.new }
    {
        'turns: for _turn in 0..self.bound {
            if !begins_unit(tokens.kind()) {
                return Ok(found);
            }
            let unit = self.unit(tokens)?;
            found.push(unit)?;
        }
        Err(Stop::Bound)
    }

    /// A design file (13.1).
    #[tactic(auto, unfolding(crate::specs::Reading::design_file))]
    pub fn design_file(&self, tokens: &mut Tokens<'_>) -> Result<DesignFile, Stop>
        ensures { Reads (spec.design_file self.now.bound tokens.old) result tokens.new }
    {
        let first = self.unit(tokens)?;
        let mut found = Items::new(self.alloc);
        found.push(first)?;
        let units = self.units(tokens, found)?;
        Ok(DesignFile { units })
    }
}
