//! A region that goes on another.

ghost use Rattle.std.specs.Prelude.{◌≡◌, ◌++◌, ◌∷◌, [], IfOk, OnOk, OnErr, string_bytes};
ghost use Rattle.std.specs.List.{list_any, last_or};
ghost use Rattle.vhdl_names_overloads.specs.Hiding.{met};
ghost use Rattle.vhdl_names_overloads.specs.Literals.{is_other};
ghost use Rattle.vhdl_names_scope.specs.Declarations.{own};
ghost use Rattle.vhdl_names_scope.specs.Nesting.{whole};
ghost use Rattle.vhdl_names_scope.specs.Pairs.{BothSeen};

use crate::pairs::hidden;
use crate::region::Region;
use std::alloc::{AllocError, Global};
use vhdl_names_overloads::{Meanings, Overloads, Pair, met};
use vhdl_units::Entry;

// The last of some entries, or else what was the last before them.
fn last_of(overloads: &Overloads, before: Option<Entry>) -> Option<Entry>
    ensures { result ≡ last_or before overloads.now }
{
    match overloads.entries().last() {
        Some(entry) => Some(*entry),
        None => before,
    }
}

/// The region of an architecture, which goes on that of its entity: both are one region (12.1). Any other
/// region goes on an empty one.
#[derive(Debug, Drop)]
pub struct Further {
    /// The declarations of the entity.
    pub base: Region,
    /// Those behind them.
    pub more: Region,
}

impl Further {
    /// A region that goes on another.
    pub fn new(alloc: Global, base: Region) -> Further
        ensures { result ≡ record { base = base; more = [] } }
    {
        Further {
            base,
            more: Region::new(alloc),
        }
    }

    /// Adds a declaration behind the others. Where memory runs out the region stays as it was.
    pub fn add(&mut self, name: String, entry: Entry) -> Result<(), AllocError>
        ensures ok { OnOk result (self.new ≡ record self.old { more = self.old.more ++ record { name = string_bytes name; entry = entry } ∷ [] }) }
        ensures err { OnErr result (self.new ≡ self.old) }
    {
        self.more.add(name, entry)
    }

    /// Whether the region declares a name to be something that is no enumeration literal.
    pub fn declares_other(&self, name: &str) -> bool
        ensures { result ≡ list_any is_other (own name.now (whole self.now)) }
    {
        self.base.find(name).has_other() || self.more.find(name).has_other()
    }

    /// What the region declared a name to be last, if it declares it.
    pub fn last(&self, name: &str) -> Option<Entry>
        ensures { result ≡ last_or None (own name.now (whole self.now)) }
    {
        let before = last_of(self.base.find(name), None);
        last_of(self.more.find(name), before)
    }

    /// What a name denotes in the region, where it denotes `found` around it.
    pub fn seen(&self, alloc: Global, name: &str, found: Meanings) -> Result<Meanings, AllocError>
        ensures { IfOk result (λ seen. seen ≡ met (own name.now (whole self.now)) found) }
    {
        met(alloc, self.base.find(name), self.more.find(name), found)
    }

    /// Two names in the region, where they are seen so around it.
    pub(crate) fn pair(
        &self,
        alloc: Global,
        left: &str,
        right: &str,
        around: Pair,
    ) -> Result<Pair, AllocError>
        ensures { IfOk result (λ pair. BothSeen left.now right.now (whole self.now ∷ []) around pair) }
    {
        let more = around.within(
            self.more.find(left),
            self.more.find(right),
            self.more.shared(left, right),
        )?;
        let all = more.within(
            self.base.find(left),
            self.base.find(right),
            self.base.shared(left, right),
        )?;
        Ok(hidden(
            alloc,
            all,
            self.declares_other(left),
            self.declares_other(right),
        ))
    }

    /// Keeps the types that two names share among the declarations of the entity and among those behind them.
    pub(crate) fn keep_shared(
        &mut self,
        alloc: Global,
        left: &str,
        right: &str,
    ) -> Result<(), AllocError>
        ensures { self.new ≡ self.old }
    {
        self.base.keep_shared(alloc, left, right)?;
        self.more.keep_shared(alloc, left, right)
    }
}
