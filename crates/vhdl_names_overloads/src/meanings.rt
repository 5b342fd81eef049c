//! What a name denotes.

ghost use Rattle.std.specs.Prelude.{◌≡◌, ◌++◌, ◌∷◌, ◌⊎◌, [], true, length, slice_get, IfOk, IfSome, OnOk, filter};
ghost use Rattle.std.specs.List.{list_all};
ghost use Rattle.vhdl_units.specs.Entries.{is_literal};
ghost use Rattle.vhdl_names_overloads.specs.Hiding.{met, overloaded};
ghost use Rattle.vhdl_names_overloads.specs.Finds.{flat, BeginsWith};
ghost use Rattle.vhdl_names_overloads.specs.Literals as spec;

use crate::literals::position_in;
use crate::overloads::Overloads;
use std::alloc::{AllocError, Global};
use std::marker::Model;
use vhdl_units::{BaseType, Entry};

// The entry at a place from 0.
fn entry_of(entries: &[Entry], place: usize) -> Option<Entry>
    ensures { result ≡ slice_get entries.now place }
{
    entries.get(place).copied()
}

// The entry at a place of lists in a row.
fn entry_at(segments: &[Overloads], place: usize) -> Option<Entry>
    ensures { result ≡ slice_get (flat segments.now) place }
{
    let mut rest = place;
    for segment in segments {
        let entries = segment.entries();
        if rest < entries.len() {
            return entry_of(entries, rest);
        }
        rest -= entries.len();
    }
    None
}

// The position of the first literal of the type `base` in lists in a row.
pub(crate) fn position_among(segments: &[Overloads], base: BaseType) -> Option<usize>
    ensures { result ≡ spec.position_of base (flat segments.now) }
{
    for segment in segments {
        if let Some(position) = segment.position(base) {
            return Some(position);
        }
    }
    None
}

// How many entries stand in lists in a row.
fn total(segments: &[Overloads]) -> Option<usize>
    ensures { IfSome result (λ n. n ≡ length (flat segments.now)) }
{
    let mut len: usize = 0;
    for segment in segments {
        len = len.checked_add(segment.entries().len())?;
    }
    Some(len)
}

// Adds lists behind others.
fn share_behind(segments: &mut Vec<Overloads>, more: &[Overloads]) -> Result<(), AllocError>
    ensures { OnOk result (flat segments.new.items ≡ flat segments.old.items ++ flat more.now) }
{
    for segment in more {
        segments.push(segment.share()?)?;
    }
    Ok(())
}

// Adds a list of one literal behind others, and nothing where the entry is none.
fn push_literal(
    alloc: Global,
    segments: &mut Vec<Overloads>,
    entry: Entry,
) -> Result<(), AllocError>
    ensures { OnOk result (flat segments.new.items ≡ flat segments.old.items ++ filter is_literal (entry ∷ [])) }
{
    if entry.is_literal() {
        let mut literal = Overloads::new(alloc);
        literal.push(entry)?;
        segments.push(literal)?;
    }
    Ok(())
}

#[derive(Debug, Drop)]
enum Found {
    One(Entry),
    // Literals alone, those of an inner region first.
    Literals(Vec<Overloads>),
}

/// What a name denotes (12.3): several entries only where all are enumeration literals.
#[derive(Debug, Drop)]
pub struct Meanings {
    found: Found,
    // How many they are.
    len: usize,
}

impl Model for Meanings {
    ghost use Rattle.std.specs.Prelude.{List};
    ghost use Rattle.vhdl_units.specs.declared.entry.Entry.{Entry};

    ghost Value = { List Entry };

    ghost use Rattle.vhdl_names_overloads.specs.Finds.{found_entries, IsFound};

    ghost view = { λ m. found_entries m.found };

    ghost invariant = { λ m. IsFound m.found m.len };
}

impl Meanings {
    /// A name that isn't declared.
    pub fn new(alloc: Global) -> Meanings
        ensures { result ≡ [] }
    {
        Meanings {
            found: Found::Literals(Vec::new(alloc)),
            len: 0,
        }
    }

    /// A name that denotes this alone.
    pub fn one(entry: Entry) -> Meanings
        ensures { result ≡ entry ∷ [] }
    {
        Meanings {
            found: Found::One(entry),
            len: 1,
        }
    }

    /// The lists of the entries, where there are not just one entry.
    pub(crate) fn segments(&self) -> Option<&[Overloads]>
        ensures { IfSome result (λ segments. flat segments.now ≡ self.now) }
    {
        match &self.found {
            Found::One(_) => None,
            Found::Literals(segments) => Some(segments.as_slice()),
        }
    }

    /// How many entries there are.
    pub fn len(&self) -> usize
        ensures { result ≡ length self.now }
    {
        self.len
    }

    /// The first of what the name denotes. There is none where it isn't declared.
    pub fn first(&self) -> Option<Entry>
        ensures { BeginsWith result self.now }
    {
        self.get(0)
    }

    /// What the name denotes, by a place from 0.
    pub fn get(&self, place: usize) -> Option<Entry>
        ensures entry { result ≡ slice_get self.now place }
        ensures alone { (list_all is_literal self.now ≡ true) ⊎ (length self.now ≡ 1) }
    {
        match &self.found {
            Found::One(entry) => if place == 0 { Some(*entry) } else { None },
            Found::Literals(segments) => entry_at(segments, place),
        }
    }

    /// The position in its type of the first literal of the type `base`. It takes the logarithm of how many there
    /// are in a region.
    #[tactic(auto, unfolding(crate::specs::Literals::position_of), using(crate::proofs::Lists::or_else_none))]
    pub fn position(&self, base: BaseType) -> Option<usize>
        ensures { result ≡ spec.position_of base self.now }
    {
        match &self.found {
            Found::One(entry) => position_in(base, *entry),
            Found::Literals(segments) => position_among(segments, base),
        }
    }

    /// The same once more.
    pub fn share(&self, alloc: Global) -> Result<Meanings, AllocError>
        ensures { IfOk result (λ meanings. meanings ≡ self.now) }
    {
        match &self.found {
            Found::One(entry) => Ok(Meanings::one(*entry)),
            Found::Literals(segments) => {
                let mut shared = Vec::new(alloc);
                share_behind(&mut shared, segments)?;
                Ok(Meanings {
                    found: Found::Literals(shared),
                    len: self.len,
                })
            }
        }
    }

    // Adds the literals among what the name denotes behind others.
    fn share_literals(&self, alloc: Global, segments: &mut Vec<Overloads>) -> Result<(), AllocError>
        ensures { OnOk result (flat segments.new.items ≡ flat segments.old.items ++ filter is_literal self.now) }
    {
        match &self.found {
            Found::One(entry) => push_literal(alloc, segments, *entry),
            Found::Literals(shared) => share_behind(segments, shared),
        }
    }
}

// What a name denotes in a region whose own entries of the name are literals.
fn overloaded(
    alloc: Global,
    base: &Overloads,
    more: &Overloads,
    found: Meanings,
) -> Result<Meanings, AllocError>
    requires { list_all is_literal (base.now ++ more.now) ≡ true }
    ensures { IfOk result (λ seen. seen ≡ overloaded (base.now ++ more.now) found) }
{
    if base.is_empty() && more.is_empty() {
        return Ok(found);
    }
    let mut segments = Vec::new(alloc);
    segments.push(base.share()?)?;
    segments.push(more.share()?)?;
    found.share_literals(alloc, &mut segments)?;
    match total(&segments) {
        Some(len) => Ok(Meanings {
            found: Found::Literals(segments),
            len,
        }),
        None => Err(AllocError),
    }
}

// The first entry of two lists in a row that is no enumeration literal.
fn first_other_of(base: &Overloads, more: &Overloads) -> Option<Entry>
    ensures { result ≡ spec.first_other (base.now ++ more.now) }
{
    match base.first_other() {
        Some(entry) => Some(entry),
        None => more.first_other(),
    }
}

/// What a name denotes in a region, where it denotes `found` in the regions around it: `base` and `more`
/// are the region's own entries of the name (12.3).
pub fn met(
    alloc: Global,
    base: &Overloads,
    more: &Overloads,
    found: Meanings,
) -> Result<Meanings, AllocError>
    ensures { IfOk result (λ seen. seen ≡ met (base.now ++ more.now) found) }
{
    match first_other_of(base, more) {
        Some(entry) => Ok(Meanings::one(entry)),
        None => overloaded(alloc, base, more, found),
    }
}
