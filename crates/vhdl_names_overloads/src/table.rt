//! Declarations of one name, among which literals are looked up by their types.

ghost use Rattle.std.specs.Prelude.{◌≡◌, ◌<◌, ◌++◌, ◌∷◌, ℕ, [], true, Some, IfOk, OnOk, OnErr};
ghost use Rattle.std.specs.BTreeMap.{get};
ghost use Rattle.std.specs.Ordering.{nat_cmp};
ghost use Rattle.vhdl_names_overloads.specs.Blocks.{Summary};
ghost use Rattle.vhdl_names_overloads.specs.Literals as spec;
ghost use Rattle.vhdl_names_overloads.specs.Sharing.{shared, Below, VisibleApart};
ghost use Rattle.vhdl_names_overloads.specs.declared.shared.Shared.TheVariants as shared_is;
ghost use Rattle.vhdl_names_overloads.specs.Tables.{Notes, Keeps};
ghost use Rattle.vhdl_units.specs.declared.base_type.BaseType.TheVariants as base;
ghost use Rattle.vhdl_units.specs.declared.entry.Entry.TheVariants as entry;

use crate::blocks::Blocks;
use crate::literals::{own_number, position_among};
use std::alloc::{AllocError, Global};
use std::collections::BTreeMap;
use std::marker::Model;
use vhdl_units::{BaseType, Entry};

// Adds the position of a literal of a type of the design, where the type has none.
#[tactic(auto, unfolding(crate::specs::Literals::position_in, crate::specs::Literals::or_else))]
fn note_own(
    own: &mut BTreeMap<usize, usize>,
    number: usize,
    position: usize,
) -> Result<(), AllocError>
    ensures ok { OnOk result ((n : ℕ) → get nat_cmp own.new n ≡ spec.or_else (get nat_cmp own.old n) (spec.position_in (base.Own n) (entry.Literal (base.Own number) position))) }
    ensures err { OnErr result ((n : ℕ) → get nat_cmp own.new n ≡ get nat_cmp own.old n) }
{
    if !own.contains_key(&number) {
        own.insert(number, position)?;
    }
    Ok(())
}

// Whether all numbers of one table are lower than all of another. It says no where one of them is empty.
fn are_below(low: &BTreeMap<usize, usize>, high: &BTreeMap<usize, usize>) -> bool
    ensures { result ≡ true → (n m p q : ℕ) → get nat_cmp low.now n ≡ Some p → get nat_cmp high.now m ≡ Some q → n < m }
{
    match (low.last_key_value(), high.first_key_value()) {
        (Some((last, _)), Some((first, _))) => *last < *first,
        _ => false,
    }
}

/// Declarations of one name, in their order.
#[derive(Debug, Drop)]
pub(crate) struct Table {
    entries: Vec<Entry>,
    // The position of the first literal of each type of the design, by the number of the type.
    own: BTreeMap<usize, usize>,
    // The literals of the types that are always visible.
    visible: Vec<Entry>,
    // The first declaration that is no literal.
    other: Option<Entry>,
    blocks: Blocks,
}

impl Model for Table {
    ghost use Rattle.std.specs.Prelude.{List};
    ghost use Rattle.vhdl_units.specs.declared.entry.Entry.{Entry};
    ghost use Rattle.vhdl_names_overloads.specs.Blocks.{Tells};

    ghost Value = { List Entry };

    ghost view = { λ t. t.entries.items };

    ghost invariant = { λ t. Tells t.own t.visible.items t.other t.blocks t.entries.items };
}

impl Table {
    /// No declarations.
    #[tactic(auto, unfolding(crate::specs::Literals::position_of))]
    pub(crate) fn new(alloc: Global) -> Table
        ensures { result ≡ [] }
    {
        Table {
            entries: Vec::new(alloc),
            own: BTreeMap::new(alloc),
            visible: Vec::new(alloc),
            other: None,
            blocks: Blocks::new(alloc),
        }
    }

    /// The declarations, in their order.
    pub(crate) fn entries(&self) -> &[Entry]
        ensures { result.now ≡ self.now }
    {
        self.entries.as_slice()
    }

    /// The types of the declarations by blocks.
    pub(crate) fn blocks(&self) -> &Blocks
        ensures { Summary result.now self.now }
    {
        &self.blocks
    }

    /// The first declaration that is no literal.
    pub(crate) fn first_other(&self) -> Option<Entry>
        ensures { result ≡ spec.first_other self.now }
    {
        self.other
    }

    /// The position of the first literal of the type `base`, by the logarithm of how many there are.
    pub(crate) fn position(&self, base: BaseType) -> Option<usize>
        ensures { result ≡ spec.position_of base self.now }
    {
        match own_number(base) {
            Some(number) => self.own.get(&number).copied(),
            None => position_among(base, self.visible.as_slice()),
        }
    }

    // Whether no type that is always visible has literals in both. It says so where one has no such literals.
    fn is_visible_apart(&self, others: &Table) -> bool
        ensures { result ≡ true → VisibleApart self.now others.now }
    {
        self.visible.as_slice().is_empty() || others.visible.as_slice().is_empty()
    }

    // Whether all types of the design in the one have lower numbers than those in the other.
    fn is_below(&self, others: &Table) -> bool
        ensures { result ≡ true → Below self.now others.now }
    {
        are_below(&self.own, &others.own)
    }

    /// Whether no type has literals in both, as all types of the one were declared before all of the other. It tells
    /// only of some such tables, and takes the logarithm of how many types they have.
    pub(crate) fn is_apart_from(&self, others: &Table) -> bool
        ensures { result ≡ true → shared (spec.literal_types self.now) (spec.literal_types others.now) ≡ shared_is.Nothing }
    {
        if !self.is_visible_apart(others) {
            return false;
        }
        if self.is_below(others) {
            return true;
        }
        others.is_below(self)
    }

    // Adds what is looked up of a declaration that was added.
    #[tactic(auto, unfolding(crate::specs::Literals::position_in, crate::specs::Literals::or_else, crate::specs::Tables::is_visible, crate::specs::Tables::first_of), using(crate::proofs::Lists::or_else_none))]
    fn note(
        own: &mut BTreeMap<usize, usize>,
        visible: &mut Vec<Entry>,
        other: &mut Option<Entry>,
        entry: Entry,
    ) -> Result<(), AllocError>
        ensures ok { OnOk result (Notes entry own.old visible.old.items other.old own.new visible.new.items other.new) }
        ensures err { OnErr result (Keeps own.old visible.old.items other.old own.new visible.new.items other.new) }
    {
        match entry {
            Entry::Literal(BaseType::Own(number), position) => note_own(own, number, position),
            Entry::Literal(_, _) => {
                visible.push(entry)?;
                Ok(())
            }
            _ => {
                if other.is_none() {
                    *other = Some(entry);
                }
                Ok(())
            }
        }
    }

    /// Adds a declaration behind the others. Where memory runs out they stay as they were.
    pub(crate) fn push(&mut self, entry: Entry) -> Result<(), AllocError>
        ensures ok { OnOk result (self.new ≡ self.old ++ entry ∷ []) }
        ensures err { OnErr result (self.new ≡ self.old) }
    {
        self.blocks.prepare(self.entries.len(), entry)?;
        self.entries.push(entry)?;
        match Table::note(&mut self.own, &mut self.visible, &mut self.other, entry) {
            Ok(()) => {
                self.blocks.add(entry);
                Ok(())
            }
            Err(error) => {
                self.entries.pop();
                Err(error)
            }
        }
    }

    /// A copy.
    pub(crate) fn copy(&self, alloc: Global) -> Result<Table, AllocError>
        ensures { IfOk result (λ table. table ≡ self.now) }
    {
        let mut table = Table::new(alloc);
        for entry in &self.entries {
            table.push(*entry)?;
        }
        Ok(table)
    }
}
