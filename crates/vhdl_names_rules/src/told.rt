//! What declarations and statements tell, by what their expressions and names tell.

ghost use Rattle.std.specs.Prelude.{◌≡◌};

use sqlite_items::Items;
use vhdl_names_typing::{NameTold, Told};
use vhdl_units::{Fault, Mark, Object};

/// What a subtype indication tells (6.3).
pub struct SubtypeTold {
    /// The place of the type's name.
    pub place: u32,
    /// The breaks in it of the rules of visibility, kinds and attributes.
    pub names: Items<Fault>,
    /// The breaks in it of the rules of types, aggregates and numbers, and bounds that aren't globally static.
    pub typing: Items<Fault>,
    /// The breaks that count where no name in the whole declaration breaks a rule: a constraint that doesn't
    /// fit, and bounds that read an object.
    pub constraint: Items<Fault>,
    /// The subtype, if the type's name denotes one.
    pub mark: Option<Mark>,
}

// A `drop` of its own is called, where a derived one is written out and proved behind each `?`.
impl Drop for SubtypeTold {
    fn drop(self) {
        let SubtypeTold {
            place: _,
            names: _names,
            typing: _typing,
            constraint: _constraint,
            mark: _,
        } = self;
    }
}

impl SubtypeTold {
    /// The breaks in its fields `names`, `typing` and `constraint`.
    pub(crate) fn into_faults(self) -> (Items<Fault>, Items<Fault>, Items<Fault>)
        ensures { result ≡ (self.names, self.typing, self.constraint) }
    {
        let SubtypeTold {
            place: _,
            names,
            typing,
            constraint,
            mark: _,
        } = self;
        (names, typing, constraint)
    }
}

/// What a declaration of objects tells: their subtype, and their value at the beginning.
#[derive(Drop)]
pub struct ObjectsTold {
    pub subtype: SubtypeTold,
    pub initial: Option<Told>,
}

/// What an element of a waveform tells (10.5.2.1).
#[derive(Drop)]
pub struct ElementTold {
    pub value: Told,
    pub after: Option<Told>,
}

/// What a wait statement tells (10.2).
#[derive(Drop)]
pub struct WaitTold {
    /// The place of the word `wait`.
    pub place: u32,
    pub on: Items<NameTold>,
    pub until: Option<Told>,
    pub time: Option<Told>,
}

/// Which formal an association names (6.5.7).
#[derive(Clone, Copy, Debug, PartialEq, Eq)]
pub enum FormalTold {
    /// The one at its place.
    Positional,
    /// The place of the name, and the generic or port of that name.
    Named(u32, Option<Object>),
}

/// The actual of an association.
#[derive(Drop)]
pub enum ActualTold {
    Value(Told),
    /// The place of the word `open`.
    Open(u32),
}

/// What an association tells.
#[derive(Drop)]
pub struct AssociationTold {
    pub formal: FormalTold,
    pub actual: ActualTold,
}
