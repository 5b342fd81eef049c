//! Types of the design by blocks of 128 numbers. They tell which types two literals can't share, many at once.

ghost use Rattle.std.specs.Prelude.{◌≡◌, ◌++◌, ◌∷◌, ◌/◌, ◌%◌, ◌^◌, ◌==◌, ℕ, [], true, length, List, OnOk, OnErr, if◌then◌else◌};
ghost use Rattle.vhdl_units.specs.declared.entry.Entry.{Entry};
ghost use Rattle.vhdl_names_overloads.specs.Blocks as spec;

use crate::literals::own_number;
use std::alloc::{AllocError, Global};
use std::collections::BTreeMap;
use vhdl_units::Entry;

/// How many types a block has: as many as a word has bits.
const TYPES: usize = 128;

/// Some of the types of a block.
#[derive(Clone, Copy, Debug)]
pub(crate) struct Block {
    pub(crate) number: usize,
    pub(crate) bits: u128,
}

/// Entries in a row, up to a place: literals of types of one block, or entries of any kind.
#[derive(Debug, Drop)]
pub(crate) struct Run {
    pub(crate) end: usize,
    pub(crate) block: Option<Block>,
}

/// The number of the design's type that an entry is a literal of.
#[tactic(auto, unfolding(crate::specs::Blocks::own_of))]
pub(crate) fn own_of(entry: Entry) -> Option<usize>
    ensures { result ≡ spec.own_of entry }
{
    match entry {
        Entry::Literal(base, _) => own_number(base),
        _ => None,
    }
}

/// The bit of a type in its block.
fn bit_of(number: usize) -> u128
    ensures { result ≡ 2 ^ (number % 128) }
{
    1u128 << (number % TYPES)
}

/// The bits of a block.
#[tactic(auto, unfolding(crate::specs::Blocks::bits_in))]
fn bits_at(bits: &BTreeMap<usize, u128>, block: usize) -> u128
    ensures { result ≡ spec.bits_at bits.now block }
{
    match bits.get(&block) {
        Some(bits) => *bits,
        None => 0,
    }
}

// Sets the bits of a block.
#[tactic(auto, unfolding(crate::specs::Blocks::bits_in))]
fn put(bits: &mut BTreeMap<usize, u128>, block: usize, more: u128) -> Result<(), AllocError>
    ensures ok { OnOk result ((n : ℕ) → spec.bits_at bits.new n ≡ (if (block == n) then more else spec.bits_at bits.old n)) }
    ensures err { OnErr result ((n : ℕ) → spec.bits_at bits.new n ≡ spec.bits_at bits.old n) }
{
    bits.insert(block, more)?;
    Ok(())
}

// Sets the bit of a type. Those that are set stay so, even where memory runs out.
fn mark(bits: &mut BTreeMap<usize, u128>, number: usize) -> Result<(), AllocError>
    ensures kept { (n : ℕ) → spec.HasBit (spec.bits_at bits.old (n / 128)) n → spec.HasBit (spec.bits_at bits.new (n / 128)) n }
    ensures ok { OnOk result (spec.HasBit (spec.bits_at bits.new (number / 128)) number) }
{
    let more = bits_at(bits, number / TYPES) | bit_of(number);
    put(bits, number / TYPES, more)
}

/// Whether an entry of these types goes into a block.
fn takes(block: Option<Block>, number: Option<usize>) -> bool
    ensures { result ≡ true → spec.Takes block number }
{
    match (block, number) {
        (None, None) => true,
        (Some(block), Some(number)) => block.number == number / TYPES,
        _ => false,
    }
}

/// A block of no types, into which an entry of this type goes.
fn empty_for(number: Option<usize>) -> Option<Block>
    ensures { spec.Takes result number }
{
    match number {
        Some(number) => Some(Block {
            number: number / TYPES,
            bits: 0,
        }),
        None => None,
    }
}

/// A block with one more type.
#[tactic(auto, unfolding(crate::specs::Blocks::with_type))]
fn with_type(block: Option<Block>, number: Option<usize>) -> Option<Block>
    ensures { result ≡ spec.with_type block number }
{
    match (block, number) {
        (Some(block), Some(number)) => Some(Block {
            number: block.number,
            bits: block.bits | bit_of(number),
        }),
        (block, _) => block,
    }
}

/// Which types of the design the entries of a name are literals of.
#[derive(Debug, Drop)]
pub(crate) struct Blocks {
    // The types of each block, by the number of the block.
    bits: BTreeMap<usize, u128>,
    // The entries up to the last change of the block.
    closed: Vec<Run>,
    // The block of those behind.
    current: Option<Block>,
}

impl Blocks {
    /// Those of no entries.
    pub(crate) fn new(alloc: Global) -> Blocks
        ensures { spec.Summary result [] }
    {
        Blocks {
            bits: BTreeMap::new(alloc),
            closed: Vec::new(alloc),
            current: None,
        }
    }

    /// The runs of entries whose block has changed.
    pub(crate) fn closed(&self) -> &[Run]
        ensures { result.now ≡ self.now.closed.items }
    {
        self.closed.as_slice()
    }

    /// The block of the entries behind the runs.
    pub(crate) fn current(&self) -> Option<Block>
        ensures { result ≡ self.now.current }
    {
        self.current
    }

    /// Whether no type of a block stands among the entries. It tells only of some blocks that none does.
    pub(crate) fn are_apart(&self, block: Block) -> bool
        ensures { (entries : List Entry) → spec.Marked self.now.bits entries → result ≡ true → spec.Apart block entries }
    {
        bits_at(&self.bits, block.number) & block.bits == 0
    }

    // Ends the run of the block, and begins one of another block.
    fn turn(&mut self, place: usize, number: Option<usize>) -> Result<(), AllocError>
        ensures kept { (entries : List Entry) → length entries ≡ place → spec.Summary self.old entries → spec.Summary self.new entries }
        ensures ok { OnOk result (spec.Takes self.new.current number) }
    {
        self.closed.push(Run {
            end: place,
            block: self.current,
        })?;
        self.current = empty_for(number);
        Ok(())
    }

    // Sees to it that the block behind the runs is one into which the entry goes.
    fn begin(&mut self, place: usize, number: Option<usize>) -> Result<(), AllocError>
        ensures kept { (entries : List Entry) → length entries ≡ place → spec.Summary self.old entries → spec.Summary self.new entries }
        ensures ok { OnOk result (spec.Takes self.new.current number) }
    {
        if takes(self.current, number) {
            return Ok(());
        }
        if place == 0 {
            self.current = empty_for(number);
            return Ok(());
        }
        self.turn(place, number)
    }

    /// Makes ready for one more entry behind `place` others, of which it goes on to tell.
    pub(crate) fn prepare(&mut self, place: usize, entry: Entry) -> Result<(), AllocError>
        ensures kept { (entries : List Entry) → length entries ≡ place → spec.Summary self.old entries → spec.Summary self.new entries }
        ensures ok { OnOk result (spec.Ready self.new entry) }
    {
        let number = own_of(entry);
        self.begin(place, number)?;
        match number {
            Some(number) => mark(&mut self.bits, number),
            None => Ok(()),
        }
    }

    /// Tells of one more entry, for which it was made ready.
    pub(crate) fn add(&mut self, entry: Entry)
        requires { spec.Ready self.old entry }
        ensures { (entries : List Entry) → spec.Summary self.old entries → spec.Summary self.new (entries ++ entry ∷ []) }
    {
        self.current = with_type(self.current, own_of(entry));
    }
}
