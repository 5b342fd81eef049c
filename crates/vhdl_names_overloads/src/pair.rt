//! The discrete types that two names share in open regions.

ghost use Rattle.std.specs.Prelude.{◌≡◌, ◌++◌, [], IfOk, OnOk};
ghost use Rattle.vhdl_names_overloads.specs.Finds.{flat};
ghost use Rattle.vhdl_names_overloads.specs.Literals.{literal_types};
ghost use Rattle.vhdl_names_overloads.specs.Sharing as spec;

use crate::overloads::Overloads;
use crate::shared::Shared;
use std::alloc::{AllocError, Global};
use std::marker::Model;

/// The discrete types of which literals stand both in one list and in lists in a row.
#[tactic(auto, unfolding(crate::specs::Sharing::together))]
fn shared_with(own: &Overloads, others: &[Overloads]) -> Shared
    ensures { result ≡ spec.shared (literal_types own.now) (literal_types (flat others.now)) }
{
    let mut now = Shared::Nothing;
    for other in others {
        now = now.together(own.shared(other));
    }
    now
}

// Puts a list before others in a row.
fn put_before(lists: &mut Vec<Overloads>, own: &Overloads) -> Result<(), AllocError>
    ensures { OnOk result (flat lists.new.items ≡ own.now ++ flat lists.old.items) }
{
    if !own.is_empty() {
        lists.insert(0, own.share()?)?;
    }
    Ok(())
}

/// Two names in regions, of which each lies in the next: the types of the literals that each of them denotes, those
/// of inner regions first, and the discrete types that both have (5.3.2.1).
#[derive(Debug, Drop)]
pub struct Pair {
    left: Vec<Overloads>,
    right: Vec<Overloads>,
    shared: Shared,
}

impl Model for Pair {
    ghost use Rattle.std.specs.Prelude.{◌≡◌};
    ghost use Rattle.vhdl_names_overloads.specs.Finds.{flat};
    ghost use Rattle.vhdl_names_overloads.specs.Literals.{literal_types};
    ghost use Rattle.vhdl_names_overloads.specs.Sharing.{TypesOfTwo};
    ghost use Rattle.vhdl_names_overloads.specs.Sharing as spec;

    ghost Value = { TypesOfTwo };

    ghost view = { λ p. record { left = literal_types (flat p.left.items); right = literal_types (flat p.right.items) } };

    ghost invariant = { λ p. p.shared ≡ spec.shared (literal_types (flat p.left.items)) (literal_types (flat p.right.items)) };
}

impl Pair {
    /// Two names that aren't declared.
    pub fn new(alloc: Global) -> Pair
        ensures { result ≡ record { left = []; right = [] } }
    {
        Pair {
            left: Vec::new(alloc),
            right: Vec::new(alloc),
            shared: Shared::Nothing,
        }
    }

    /// The discrete types that both have.
    pub fn shared(&self) -> Shared
        ensures { result ≡ spec.shared self.now.left self.now.right }
    {
        self.shared
    }

    /// The first name denotes no literals.
    pub fn hide_left(self, alloc: Global) -> Pair
        ensures { result ≡ record self { left = [] } }
    {
        Pair {
            left: Vec::new(alloc),
            right: self.right,
            shared: Shared::Nothing,
        }
    }

    /// The second name denotes no literals.
    pub fn hide_right(self, alloc: Global) -> Pair
        ensures { result ≡ record self { right = [] } }
    {
        Pair {
            left: self.left,
            right: Vec::new(alloc),
            shared: Shared::Nothing,
        }
    }

    /// Both names denote these literals too, of an inner region. `own` are the types that are shared by the two
    /// lists.
    pub fn within(
        self,
        left: &Overloads,
        right: &Overloads,
        own: Shared,
    ) -> Result<Pair, AllocError>
        requires { own ≡ spec.shared (literal_types left.now) (literal_types right.now) }
        ensures { IfOk result (λ pair. pair ≡ record { left = literal_types left.now ++ self.left; right = literal_types right.now ++ self.right }) }
    {
        let inner = own.together(shared_with(left, self.right.as_slice()));
        let outer = shared_with(right, self.left.as_slice()).together(self.shared);
        let mut lefts = self.left;
        let mut rights = self.right;
        put_before(&mut lefts, left)?;
        put_before(&mut rights, right)?;
        Ok(Pair {
            left: lefts,
            right: rights,
            shared: inner.together(outer),
        })
    }
}
