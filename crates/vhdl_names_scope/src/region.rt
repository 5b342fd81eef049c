//! One declarative region.

ghost use Rattle.std.specs.Prelude.{◌≡◌, ◌++◌, ◌∷◌, ℕ, List, Some, [], string_bytes, if◌then◌else◌, OnOk, OnErr};
ghost use Rattle.std.specs.BTreeMap.{get_by_text};
ghost use Rattle.std.specs.Str.{bytes_eq};
ghost use Rattle.vhdl_names_overloads.specs.declared.shared.Shared.{Shared};
ghost use Rattle.vhdl_names_scope.specs.Declarations.{Named, own};
ghost use Rattle.vhdl_names_scope.specs.Tables.{Adds, Keeps, KeepsOne, Shares, own_shared, shared_at};

use std::alloc::{AllocError, Global};
use std::collections::BTreeMap;
use std::marker::Model;
use vhdl_names_overloads::{Overloads, Shared};
use vhdl_units::Entry;

/// A declaration: a name, in lower case or a character literal as it is spelled, and what it denotes.
#[derive(Debug, Drop)]
pub struct Declared {
    name: String,
    entry: Entry,
}

impl Model for Declared {
    ghost use Rattle.std.specs.Prelude.{string_bytes};
    ghost use Rattle.vhdl_names_scope.specs.Declarations.{Named};

    ghost Value = { Named };

    ghost view = { λ d. record { name = string_bytes d.name; entry = d.entry } };
}

impl Declared {
    /// A declaration of this entry by this name.
    pub fn new(name: String, entry: Entry) -> Declared
        ensures { result ≡ record { name = string_bytes name; entry = entry } }
    {
        Declared { name, entry }
    }

    /// The name, in small letters where it is an identifier.
    pub fn name(&self) -> &str
        ensures { result.now ≡ self.now.name }
    {
        self.name.as_str()
    }

    /// What the name denotes.
    pub fn entry(&self) -> Entry
        ensures { result ≡ self.now.entry }
    {
        self.entry
    }
}

// Adds an entry to those of a name.
fn note(
    table: &mut BTreeMap<String, Overloads>,
    name: String,
    entry: Entry,
) -> Result<(), AllocError>
    ensures ok { OnOk result (Adds (string_bytes name) entry table.old table.new) }
    ensures err { OnErr result (Keeps table.old table.new) }
{
    match table.entry(name)?.or_default().push(entry) {
        Ok(()) => Ok(()),
        Err(error) => Err(error),
    }
}

// The types that two names share, if they are kept.
fn kept_of(sharings: &Sharings, left: &str, right: &str) -> Option<Shared>
    ensures { result ≡ shared_at sharings.now left.now right.now }
{
    match sharings.get(left) {
        Some(row) => row.get(right).copied(),
        None => None,
    }
}

// Takes out what is kept of a first name.
fn take_row(alloc: Global, sharings: &mut Sharings, left: &str) -> BTreeMap<String, Shared>
    ensures row { (r : List ℕ) → get_by_text result r ≡ shared_at sharings.old left.now r }
    ensures rest { (l r : List ℕ) (k : Shared) → shared_at sharings.new l r ≡ Some k → shared_at sharings.old l r ≡ Some k }
{
    match sharings.remove(left) {
        Some(row) => row,
        None => BTreeMap::new(alloc),
    }
}

// Adds the types that are shared with a second name.
fn add_to_row(
    row: &mut BTreeMap<String, Shared>,
    right: String,
    shared: Shared,
) -> Result<(), AllocError>
    ensures { OnOk result ((r : List ℕ) → get_by_text row.new r ≡ (if bytes_eq (string_bytes right) r then Some shared else get_by_text row.old r)) }
{
    row.insert(right, shared)?;
    Ok(())
}

// Puts what is kept of a first name in.
fn put_row(
    sharings: &mut Sharings,
    left: String,
    row: BTreeMap<String, Shared>,
) -> Result<(), AllocError>
    ensures ok { OnOk result ((l r : List ℕ) → shared_at sharings.new l r ≡ (if bytes_eq (string_bytes left) l then get_by_text row r else shared_at sharings.old l r)) }
    ensures err { OnErr result ((l r : List ℕ) → shared_at sharings.new l r ≡ shared_at sharings.old l r) }
{
    match sharings.insert(left, row) {
        Ok(_) => Ok(()),
        Err(_) => Err(AllocError),
    }
}

// Keeps the types that two names share. Where memory runs out others may be forgotten.
fn keep(
    alloc: Global,
    sharings: &mut Sharings,
    left: String,
    right: String,
    shared: Shared,
) -> Result<(), AllocError>
    ensures { KeepsOne (string_bytes left) (string_bytes right) shared sharings.old sharings.new }
{
    let mut row = take_row(alloc, sharings, left.as_str());
    add_to_row(&mut row, right, shared)?;
    put_row(sharings, left, row)?;
    Ok(())
}

// Forgets what is kept where a literal is added: it may be of a type that two names share then.
fn forget(sharings: &mut Sharings, entry: Entry)
    ensures stays { (region : List Named) → Shares sharings.old region → Shares sharings.new region }
    ensures added { (region : List Named) (name : List ℕ) → Shares sharings.old region → Shares sharings.new (region ++ record { name = name; entry = entry } ∷ []) }
{
    if entry.is_literal() {
        sharings.clear();
    }
}

// The types that two names share, by the names.
type Sharings = BTreeMap<String, BTreeMap<String, Shared>>;

/// Declarations in their order. Looking a name up takes the logarithm of how many names there are.
#[derive(Debug, Drop)]
struct Declarations {
    all: Vec<Declared>,
    table: BTreeMap<String, Overloads>,
    // What is found of a name that isn't declared.
    undeclared: Overloads,
}

impl Model for Declarations {
    ghost use Rattle.std.specs.Prelude.{List};
    ghost use Rattle.vhdl_names_scope.specs.Declarations.{Named};
    ghost use Rattle.vhdl_names_scope.specs.Tables.{Finds};

    ghost Value = { List Named };

    ghost view = { λ d. d.all.items };

    ghost invariant = { λ d. Finds d.table d.undeclared d.all.items };
}

impl Declarations {
    fn new(alloc: Global) -> Declarations
        ensures { result ≡ [] }
    {
        Declarations {
            all: Vec::new(alloc),
            table: BTreeMap::new(alloc),
            undeclared: Overloads::new(alloc),
        }
    }

    fn all(&self) -> &[Declared]
        ensures { result.now ≡ self.now }
    {
        self.all.as_slice()
    }

    fn find(&self, name: &str) -> &Overloads
        ensures { result.now ≡ own name.now self.now }
    {
        match self.table.get(name) {
            Some(entries) => entries,
            None => &self.undeclared,
        }
    }

    fn add(&mut self, name: String, entry: Entry) -> Result<(), AllocError>
        ensures ok { OnOk result (self.new ≡ self.old ++ record { name = string_bytes name; entry = entry } ∷ []) }
        ensures err { OnErr result (self.new ≡ self.old) }
    {
        let key = name.clone()?;
        self.all.push(Declared::new(name, entry))?;
        match note(&mut self.table, key, entry) {
            Ok(()) => Ok(()),
            Err(error) => {
                self.all.pop();
                Err(error)
            }
        }
    }
}

/// The declarations of a declarative region, in their order (12.1). Looking a name up takes the logarithm
/// of how many names there are.
#[derive(Debug, Drop)]
pub struct Region {
    declarations: Declarations,
    sharings: Sharings,
}

impl Model for Region {
    ghost use Rattle.std.specs.Prelude.{List};
    ghost use Rattle.vhdl_names_scope.specs.Declarations.{Named};
    ghost use Rattle.vhdl_names_scope.specs.Tables.{Shares};

    ghost Value = { List Named };

    ghost view = { λ r. r.declarations };

    ghost invariant = { λ r. Shares r.sharings r.declarations };
}

impl Region {
    /// A region of no declarations.
    pub fn new(alloc: Global) -> Region
        ensures { result ≡ [] }
    {
        Region {
            declarations: Declarations::new(alloc),
            sharings: BTreeMap::new(alloc),
        }
    }

    /// The declarations, in their order.
    pub fn declarations(&self) -> &[Declared]
        ensures { result.now ≡ self.now }
    {
        self.declarations.all()
    }

    /// What the region declares a name to be, in the order of the declarations.
    pub fn find(&self, name: &str) -> &Overloads
        ensures { result.now ≡ own name.now self.now }
    {
        self.declarations.find(name)
    }

    /// The discrete types of which both names have literals in the region (5.3.2.1).
    pub fn shared(&self, left: &str, right: &str) -> Shared
        ensures { result ≡ own_shared left.now right.now self.now }
    {
        match kept_of(&self.sharings, left, right) {
            Some(shared) => shared,
            None => self.find(left).shared(self.find(right)),
        }
    }

    /// Keeps the types that two names share, so that they are found by a lookup from now on.
    pub fn keep_shared(&mut self, alloc: Global, left: &str, right: &str) -> Result<(), AllocError>
        ensures { self.new ≡ self.old }
    {
        if kept_of(&self.sharings, left, right).is_some() {
            return Ok(());
        }
        let shared = self.shared(left, right);
        let left = String::from_str(alloc, left)?;
        let right = String::from_str(alloc, right)?;
        keep(alloc, &mut self.sharings, left, right, shared)
    }

    /// Adds a declaration behind the others. Where memory runs out the region stays as it was.
    pub fn add(&mut self, name: String, entry: Entry) -> Result<(), AllocError>
        ensures ok { OnOk result (self.new ≡ self.old ++ record { name = string_bytes name; entry = entry } ∷ []) }
        ensures err { OnErr result (self.new ≡ self.old) }
    {
        forget(&mut self.sharings, entry);
        match self.declarations.add(name, entry) {
            Ok(()) => Ok(()),
            Err(error) => Err(error),
        }
    }
}
