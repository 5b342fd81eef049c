//! Which discrete types two expressions can both have.

ghost use Rattle.std.specs.Prelude.{◌≡◌, ◌≤◌, [], true, drop, length, if◌then◌else◌};
ghost use Rattle.vhdl_names_overloads.specs.Blocks.{Apart, Inside, Summary};
ghost use Rattle.vhdl_names_overloads.specs.Finds.{flat};
ghost use Rattle.vhdl_names_overloads.specs.Literals.{literal_types};
ghost use Rattle.vhdl_names_overloads.specs.Sharing as spec;
ghost use Rattle.vhdl_names_overloads.specs.declared.shared.Shared.TheVariants as shared_is;

use crate::blocks::{Block, Blocks};
use crate::literals::literal_type;
use crate::meanings::position_among;
use crate::overloads::Overloads;
use std::slice;
use vhdl_units::{BaseType, Entry};

/// The discrete types that two expressions can both have (5.3.2.1).
#[derive(Clone, Copy, Debug)]
pub enum Shared {
    /// There is none.
    Nothing,
    /// There is this one alone.
    One(BaseType),
    /// There are at least two.
    Several,
}

impl Shared {
    /// The types that are shared by these or by those.
    #[tactic(auto, unfolding(crate::specs::Sharing::together))]
    pub fn together(self, others: Shared) -> Shared
        ensures { result ≡ spec.together self others }
    {
        match (self, others) {
            (Shared::Nothing, others) => others,
            (shared, Shared::Nothing) => shared,
            (Shared::One(base), Shared::One(other)) if base.is(other) => self,
            _ => Shared::Several,
        }
    }
}

/// One type more.
#[tactic(auto, unfolding(crate::specs::Sharing::one_more))]
fn one_more(shared: Shared, base: BaseType) -> Shared
    ensures { result ≡ spec.one_more shared base }
{
    match shared {
        Shared::Nothing => Shared::One(base),
        Shared::One(other) if other.is(base) => shared,
        _ => Shared::Several,
    }
}

/// One type more, where it is counted.
pub(crate) fn more_if(is_counted: bool, shared: Shared, base: BaseType) -> Shared
    ensures { result ≡ (if is_counted then spec.one_more shared base else shared) }
{
    if is_counted {
        one_more(shared, base)
    } else {
        shared
    }
}

/// Whether a type is discrete and a literal of it stands in lists in a row.
#[tactic(auto, unfolding(crate::specs::Sharing::is_literal_of))]
fn is_literal_of(others: &[Overloads], base: BaseType) -> bool
    ensures { result ≡ spec.is_literal_of (flat others.now) base }
{
    base.is_discrete() && position_among(others, base).is_some()
}

/// One entry more.
#[tactic(auto, unfolding(crate::specs::Sharing::with_entry, crate::specs::Sharing::if_passes))]
fn with_entry(others: &[Overloads], shared: Shared, entry: Entry) -> Shared
    ensures { result ≡ spec.with_entry (flat others.now) shared entry }
{
    match literal_type(entry) {
        Some(base) => more_if(is_literal_of(others, base), shared, base),
        None => shared,
    }
}

/// The entries from one place up to another, each in turn.
fn with_each(
    others: &[Overloads],
    shared: Shared,
    entries: &[Entry],
    start: usize,
    end: usize,
) -> Shared
    requires order { start ≤ end }
    requires end { end ≤ length entries.now }
    ensures { spec.with_entries (flat others.now) result (drop end entries.now) ≡ spec.with_entries (flat others.now) shared (drop start entries.now) }
{
    let mut now = shared;
    for place in start..end {
        now = with_entry(others, now, entries[place]);
    }
    now
}

/// Whether no type of a block stands in lists in a row. It tells only of some blocks that none does.
fn are_apart(others: &[Overloads], block: Block) -> bool
    ensures { result ≡ true → Apart block (flat others.now) }
{
    for other in others {
        if !other.are_apart(block) {
            return false;
        }
    }
    true
}

/// Whether entries of a block change nothing.
fn passes_over(others: &[Overloads], shared: Shared, block: Option<Block>) -> bool
    ensures { result ≡ true → spec.PassesOver (flat others.now) shared block }
{
    match (shared, block) {
        (Shared::Several, _) => true,
        (_, Some(block)) => are_apart(others, block),
        (_, None) => false,
    }
}

/// The entries from one place up to another, which are of one block.
fn with_run(
    others: &[Overloads],
    shared: Shared,
    entries: &[Entry],
    start: usize,
    end: usize,
    block: Option<Block>,
) -> Shared
    requires order { start ≤ end }
    requires end { end ≤ length entries.now }
    requires inside { Inside block start end entries.now }
    ensures { spec.with_entries (flat others.now) result (drop end entries.now) ≡ spec.with_entries (flat others.now) shared (drop start entries.now) }
{
    if passes_over(others, shared, block) {
        shared
    } else {
        with_each(others, shared, entries, start, end)
    }
}

/// The entries of a name.
fn with_blocks(others: &[Overloads], shared: Shared, entries: &[Entry], blocks: &Blocks) -> Shared
    requires { Summary blocks.now entries.now }
    ensures { result ≡ spec.with_entries (flat others.now) shared entries.now }
{
    let mut now = shared;
    let mut start = 0;
    for run in blocks.closed() {
        now = with_run(others, now, entries, start, run.end, run.block);
        start = run.end;
    }
    with_run(others, now, entries, start, entries.len(), blocks.current())
}

#[tactic(auto, unfolding(crate::specs::Sharing::with_entries))]
fn with_segment(others: &[Overloads], shared: Shared, segment: &Overloads) -> Shared
    ensures { result ≡ spec.with_entries (flat others.now) shared segment.now }
{
    match segment.blocks() {
        Some(blocks) => with_blocks(others, shared, segment.entries(), blocks),
        None => shared,
    }
}

/// The types of which literals stand in both. Blocks of 128 types that don't stand in both are passed over at once.
pub(crate) fn shared_literals(own: &[Overloads], others: &[Overloads]) -> Shared
    ensures { result ≡ spec.with_entries (flat others.now) shared_is.Nothing (flat own.now) }
{
    let mut shared = Shared::Nothing;
    for segment in own {
        shared = with_segment(others, shared, segment);
    }
    shared
}

// The same, of the literals of two names in a region each.
fn shared_of(one: &Overloads, others: &Overloads) -> Shared
    ensures { result ≡ spec.shared (literal_types one.now) (literal_types others.now) }
{
    shared_literals(slice::from_ref(one), slice::from_ref(others))
}

impl Overloads {
    /// The discrete types of which literals stand both here and among others (5.3.2.1). It takes a lookup for each
    /// block of 128 types of the one that has fewer, and the logarithm of how many there are where all types of one
    /// were declared before those of the other.
    pub fn shared(&self, others: &Overloads) -> Shared
        ensures { result ≡ spec.shared (literal_types self.now) (literal_types others.now) }
    {
        if self.is_apart_from(others) {
            Shared::Nothing
        } else if others.entries().len() < self.entries().len() {
            shared_of(others, self)
        } else {
            shared_of(self, others)
        }
    }
}
