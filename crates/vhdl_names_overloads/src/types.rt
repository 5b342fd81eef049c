//! The types that an expression can have.

ghost use Rattle.std.specs.Prelude.{◌≡◌, ◌∷◌, [], length, slice_get, IfOk, IfSome};
ghost use Rattle.std.specs.List.{list_any};
ghost use Rattle.vhdl_units.specs.Types.{same};
ghost use Rattle.vhdl_names_overloads.specs.Finds.{flat, BeginsWith};
ghost use Rattle.vhdl_names_overloads.specs.Kinds.{type_of, WhetherLiterals};
ghost use Rattle.vhdl_names_overloads.specs.Literals.{literal_types};
ghost use Rattle.vhdl_names_overloads.specs.Sharing.{if_passes, is_shared, shared};

use crate::literals::literal_type;
use crate::meanings::Meanings;
use crate::overloads::Overloads;
use crate::shared::{Shared, more_if, shared_literals};
use sqlite_items::Items;
use std::alloc::{AllocError, Global};
use std::marker::Model;
use vhdl_units::{BaseType, Entry};

#[derive(Drop)]
enum Kept {
    None,
    Listed(Items<BaseType>),
    // The types of literals.
    Literals(Meanings),
}

/// The types that an expression can have before its place says which (12.5).
#[derive(Drop)]
pub struct Types {
    kept: Kept,
}

impl Model for Types {
    ghost use Rattle.std.specs.Prelude.{List};
    ghost use Rattle.vhdl_units.specs.declared.base_type.BaseType.{BaseType};

    ghost Value = { List BaseType };

    ghost use Rattle.vhdl_names_overloads.specs.Kinds.{kept_types, AreOfLiterals};

    ghost view = { λ t. kept_types t.kept };

    ghost invariant = { λ t. AreOfLiterals t.kept };
}

// Whether `base` is one of the types, where each is looked at.
fn is_among(base: BaseType, types: &[BaseType]) -> bool
    ensures { result ≡ list_any (same base) types.now }
{
    types.iter().any(|member| base.is(*member))
}

// Whether what a name denotes is literals alone. Where it isn't, no literal stands in it.
fn are_literals(entries: &Meanings) -> bool
    ensures { WhetherLiterals result entries.now }
{
    match entries.get(0) {
        Some(entry) => entry.is_literal(),
        None => true,
    }
}

// The type of the entry that may be there.
fn type_of(entry: Option<Entry>) -> Option<BaseType>
    ensures { result ≡ type_of entry }
{
    match entry {
        Some(entry) => literal_type(entry),
        None => None,
    }
}

/// One type more, where there is one, it is discrete and stands among others.
#[tactic(auto, unfolding(crate::specs::Sharing::if_passes, crate::specs::Sharing::is_shared))]
fn with_type(shared: Shared, base: Option<BaseType>, others: &Types) -> Shared
    ensures { result ≡ if_passes (is_shared others.now) shared base }
{
    match base {
        Some(base) => more_if(base.is_discrete() && others.has(base), shared, base),
        None => shared,
    }
}

/// The discrete types that stand in both, where each is looked at.
fn one_by_one(types: &Types, others: &Types) -> Shared
    ensures { result ≡ shared types.now others.now }
{
    let mut now = Shared::Nothing;
    for place in 0..types.len() {
        now = with_type(now, types.get(place), others);
    }
    now
}

impl Types {
    /// No type.
    pub fn new() -> Types
        ensures { result ≡ [] }
    {
        Types { kept: Kept::None }
    }

    /// One type.
    pub fn one(alloc: Global, base: BaseType) -> Result<Types, AllocError>
        ensures { IfOk result (λ types. types ≡ base ∷ []) }
    {
        Ok(Types {
            kept: Kept::Listed(Items::from_slice(alloc, &[base])?),
        })
    }

    /// These types.
    pub fn from_items(types: Items<BaseType>) -> Types
        ensures { result ≡ types }
    {
        Types {
            kept: Kept::Listed(types),
        }
    }

    /// The types of overloaded enumeration literals, in their order (12.3). Each stands there once where no two of
    /// the entries are literals of one type.
    pub fn of_literals(entries: Meanings) -> Types
        ensures { result ≡ literal_types entries }
    {
        if are_literals(&entries) {
            Types {
                kept: Kept::Literals(entries),
            }
        } else {
            Types::new()
        }
    }

    /// The same once more.
    pub fn share(&self, alloc: Global) -> Result<Types, AllocError>
        ensures { IfOk result (λ types. types ≡ self.now) }
    {
        match &self.kept {
            Kept::None => Ok(Types::new()),
            Kept::Listed(types) => {
                Ok(Types::from_items(Items::from_slice(alloc, types.as_slice())?))
            }
            Kept::Literals(entries) => Ok(Types::of_literals(entries.share(alloc)?)),
        }
    }

    /// Whether `base` is one of the types. It takes the logarithm of how many overloaded literals there are.
    pub fn has(&self, base: BaseType) -> bool
        ensures { result ≡ list_any (same base) self.now }
    {
        match &self.kept {
            Kept::None => false,
            Kept::Listed(types) => is_among(base, types.as_slice()),
            Kept::Literals(entries) => entries.position(base).is_some(),
        }
    }

    /// How many types there are.
    pub fn len(&self) -> usize
        ensures { result ≡ length self.now }
    {
        match &self.kept {
            Kept::None => 0,
            Kept::Listed(types) => types.len(),
            Kept::Literals(entries) => entries.len(),
        }
    }

    /// The first of the types, if there are any.
    pub fn first(&self) -> Option<BaseType>
        ensures { BeginsWith result self.now }
    {
        self.get(0)
    }

    /// The type at a place from 0.
    pub fn get(&self, place: usize) -> Option<BaseType>
        ensures { result ≡ slice_get self.now place }
    {
        match &self.kept {
            Kept::None => None,
            Kept::Listed(types) => types.get(place).copied(),
            Kept::Literals(entries) => type_of(entries.get(place)),
        }
    }

    /// The lists of literals whose types they are, if they are types of literals.
    fn literals(&self) -> Option<&[Overloads]>
        ensures { IfSome result (λ segments. literal_types (flat segments.now) ≡ self.now) }
    {
        match &self.kept {
            Kept::Literals(entries) => entries.segments(),
            _ => None,
        }
    }

    /// The discrete types that stand both here and among others (5.3.2.1). Types of literals are compared by
    /// blocks of 128, each of which takes the logarithm of how many blocks the others have.
    pub fn shared(&self, others: &Types) -> Shared
        ensures { result ≡ shared self.now others.now }
    {
        match (self.literals(), others.literals()) {
            (Some(own), Some(others)) => shared_literals(own, others),
            _ => one_by_one(self, others),
        }
    }
}
