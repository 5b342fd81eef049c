//! The declarations of a name in one region.

ghost use Rattle.std.specs.Prelude.{◌≡◌, ◌++◌, ◌∷◌, ◌==◌, [], true, length, IfOk, OnOk, OnErr, MatchOption};
ghost use Rattle.std.specs.List.{list_any};
ghost use Rattle.vhdl_names_overloads.specs.Blocks.{Apart, Summary};
ghost use Rattle.vhdl_names_overloads.specs.Literals as spec;
ghost use Rattle.vhdl_names_overloads.specs.Sharing.{shared};
ghost use Rattle.vhdl_names_overloads.specs.declared.shared.Shared.TheVariants as shared_is;

use crate::blocks::{Block, Blocks};
use crate::table::Table;
use std::alloc::{AllocError, Global};
use std::default::MadeWith;
use std::marker::Model;
use std::rc::Rc;
use vhdl_units::{BaseType, Entry};

// Adds a declaration behind others, to a copy of them where a use holds them.
fn push_shared(alloc: Global, shared: &mut Rc<Table>, entry: Entry) -> Result<(), AllocError>
    ensures ok { OnOk result (shared.new.value ≡ shared.old.value ++ entry ∷ []) }
    ensures err { OnErr result (shared.new.value ≡ shared.old.value) }
{
    match Rc::get_mut(shared) {
        Some(table) => table.push(entry),
        None => {
            let mut table = (**shared).copy(alloc)?;
            table.push(entry)?;
            *shared = Rc::new(alloc, table)?;
            Ok(())
        }
    }
}

/// The declarations of a name in one region, in their order (12.3). They are shared with each use of the name that
/// holds them, and copied where one is added while some use does.
#[derive(Debug, Drop)]
pub struct Overloads {
    alloc: Global,
    shared: Option<Rc<Table>>,
}

impl Model for Overloads {
    ghost use Rattle.std.specs.Prelude.{List, []};
    ghost use Rattle.std.specs.Option.{option_map_or};
    ghost use Rattle.vhdl_units.specs.declared.entry.Entry.{Entry};

    ghost Value = { List Entry };

    ghost view = { λ o. option_map_or (λ rc. rc.value) o.shared [] };
}

impl MadeWith<Global> for Overloads {
    ghost is_made_with = { λ o. o ≡ [] };

    fn made_with(alloc: Global) -> Overloads {
        Overloads::new(alloc)
    }
}

impl Overloads {
    /// No declarations.
    pub fn new(alloc: Global) -> Overloads
        ensures { result ≡ [] }
    {
        Overloads {
            alloc,
            shared: None,
        }
    }

    /// The declarations, in their order.
    pub fn entries(&self) -> &[Entry]
        ensures { result.now ≡ self.now }
    {
        match &self.shared {
            Some(table) => table.as_ref().entries(),
            None => &[],
        }
    }

    /// Whether there are none.
    pub fn is_empty(&self) -> bool
        ensures { result ≡ (length self.now == 0) }
    {
        self.entries().len() == 0
    }

    /// Whether some declaration is no literal.
    pub fn has_other(&self) -> bool
        ensures { result ≡ list_any spec.is_other self.now }
    {
        self.first_other().is_some()
    }

    /// The first declaration that is no literal.
    pub fn first_other(&self) -> Option<Entry>
        ensures { result ≡ spec.first_other self.now }
    {
        match &self.shared {
            Some(table) => table.as_ref().first_other(),
            None => None,
        }
    }

    /// The position in its type of the first literal of the type `base`. It takes the logarithm of how many there
    /// are.
    #[tactic(auto, unfolding(crate::specs::Literals::position_of))]
    pub fn position(&self, base: BaseType) -> Option<usize>
        ensures { result ≡ spec.position_of base self.now }
    {
        match &self.shared {
            Some(table) => table.as_ref().position(base),
            None => None,
        }
    }

    /// The types of the declarations by blocks, if there are any.
    pub(crate) fn blocks(&self) -> Option<&Blocks>
        ensures { MatchOption result (self.now ≡ []) (λ blocks. Summary blocks.now self.now) }
    {
        match &self.shared {
            Some(table) => Some(table.as_ref().blocks()),
            None => None,
        }
    }

    /// Whether no type of a block stands among the declarations. It tells only of some blocks that none does.
    #[tactic(auto, unfolding(crate::specs::Literals::position_of))]
    pub(crate) fn are_apart(&self, block: Block) -> bool
        ensures { result ≡ true → Apart block self.now }
    {
        match self.blocks() {
            Some(blocks) => blocks.are_apart(block),
            None => true,
        }
    }

    /// Whether no type has literals in both. It tells only of some lists that none has.
    pub(crate) fn is_apart_from(&self, others: &Overloads) -> bool
        ensures { result ≡ true → shared (spec.literal_types self.now) (spec.literal_types others.now) ≡ shared_is.Nothing }
    {
        match (&self.shared, &others.shared) {
            (Some(table), Some(others)) => table.as_ref().is_apart_from(others.as_ref()),
            _ => true,
        }
    }

    /// The same declarations once more.
    pub fn share(&self) -> Result<Overloads, AllocError>
        ensures { IfOk result (λ overloads. overloads ≡ self.now) }
    {
        let shared = match &self.shared {
            Some(table) => Some(table.clone()?),
            None => None,
        };
        Ok(Overloads {
            alloc: self.alloc,
            shared,
        })
    }

    /// Adds a declaration behind the others. Where memory runs out they stay as they were.
    pub fn push(&mut self, entry: Entry) -> Result<(), AllocError>
        ensures ok { OnOk result (self.new ≡ self.old ++ entry ∷ []) }
        ensures err { OnErr result (self.new ≡ self.old) }
    {
        match &mut self.shared {
            Some(shared) => push_shared(self.alloc, shared, entry),
            None => {
                let mut table = Table::new(self.alloc);
                table.push(entry)?;
                self.shared = Some(Rc::new(self.alloc, table)?);
                Ok(())
            }
        }
    }
}
