//! What is known of an expression before its place says which of its types is meant.
//!
//! `Told` and `NameTold` have a `drop` of their own, so that a function which drops one calls it. A derived one is
//! written out wherever such a value may be dropped, as behind each `?`, and is proved there again.

ghost use Rattle.std.specs.Prelude.{◌≡◌};
ghost use Rattle.vhdl_names_typing.specs.Names as names_spec;

use sqlite_items::Items;
use vhdl_names_overloads::Types;
use vhdl_tokens::Token;
use vhdl_tree::Operator;
use vhdl_units::{BaseType, Fault, Function, Mark, Object, ObjectAttribute};

/// The name of an object, of an element of it or of a slice (8.1).
#[derive(Clone, Copy)]
pub struct ObjectName {
    pub object: Object,
    /// The type of what is named. There is none where an index or slice follows what is no array.
    pub base: Option<BaseType>,
    /// Whether each index and slice is globally static, so that it is a static name (8.1).
    pub is_static: bool,
    /// Whether the bounds of what is named are globally static: those of a declared object are, those of a slice
    /// where its own range is.
    pub has_static_bounds: bool,
}

/// An attribute of an enumeration type that takes an argument (16.2).
#[derive(Clone, Copy)]
pub enum TypeAttribute {
    Pos,
    Val,
}

/// An attribute (16.2).
#[derive(Clone, Copy)]
pub enum Attribute {
    Object(ObjectAttribute),
    Range,
    Type(TypeAttribute),
}

/// What a name denotes.
#[derive(Clone, Copy)]
pub enum Denotes {
    /// It breaks a rule of visibility, of kinds or of attributes.
    Unknown,
    Object(ObjectName),
    /// A literal, or what a function or an attribute gives.
    Value,
    /// The function NOW, which takes no argument.
    Now,
    Subtype(Mark),
    /// A function without its argument.
    Function(Function),
    /// An attribute of a type without its argument.
    TypeAttribute(TypeAttribute, BaseType),
    /// The range of an array.
    Range,
    Unit,
    Label,
}

/// What a name tells.
pub struct NameTold {
    /// The place of its identifier.
    pub place: u32,
    /// The breaks in it of the rules of visibility, kinds and attributes.
    pub names: Items<Fault>,
    /// The breaks in it of the rules of types, aggregates and numbers.
    pub typing: Items<Fault>,
    pub denotes: Denotes,
    /// The types that it can have as a value.
    pub types: Types,
    /// Whether it is globally static as a value (9.4.3).
    pub is_static: bool,
    /// Whether its value hangs on that of a signal or variable.
    pub reads: bool,
    /// Whether an index or slice follows what is no array.
    pub is_misfit: bool,
}

impl Drop for NameTold {
    fn drop(self) {
        let NameTold {
            place: _,
            names: _names,
            typing: _typing,
            denotes: _,
            types: _types,
            is_static: _,
            reads: _,
            is_misfit: _,
        } = self;
    }
}

impl NameTold {
    /// It comes to denote this, and to have these types.
    pub(crate) fn becomes(&mut self, denotes: Denotes, types: Types)
        ensures { self.new ≡ record self.old { denotes = denotes; types = types } }
    {
        self.denotes = denotes;
        self.types = types;
    }

    /// The breaks in it of the rules of visibility, kinds and attributes, and those of types, aggregates and numbers.
    pub fn into_faults(self) -> (Items<Fault>, Items<Fault>)
        ensures { result ≡ (self.names, self.typing) }
    {
        let NameTold {
            place: _,
            names,
            typing,
            denotes: _,
            types: _types,
            is_static: _,
            reads: _,
            is_misfit: _,
        } = self;
        (names, typing)
    }

    /// What it tells as an expression of this form, that can have these types.
    #[tactic(auto, unfolding(crate::specs::Names::told_as))]
    pub(crate) fn told_as(self, form: Form, types: Types) -> Told
        ensures { result ≡ names_spec.told_as form types self }
    {
        let NameTold {
            place,
            names,
            typing,
            denotes: _,
            types: _types,
            is_static,
            reads,
            is_misfit: _,
        } = self;
        Told {
            place,
            names,
            typing,
            types,
            is_static,
            reads,
            form,
        }
    }

    /// What it tells as an expression of this form, that can have the types that it has itself.
    #[tactic(auto, unfolding(crate::specs::Names::told_as))]
    pub(crate) fn told_with_types(self, form: Form) -> Told
        ensures { result ≡ names_spec.told_as form self.types self }
    {
        let NameTold {
            place,
            names,
            typing,
            denotes: _,
            types,
            is_static,
            reads,
            is_misfit: _,
        } = self;
        Told {
            place,
            names,
            typing,
            types,
            is_static,
            reads,
            form,
        }
    }
}

/// What an expression is as a whole, where its place asks for that.
#[derive(Clone, Copy)]
pub enum Form {
    /// A name that denotes no value.
    Unknown,
    /// The name of an object.
    Object(ObjectName),
    /// An aggregate with `others`, and whether it has other choices as well.
    Others(bool),
    Value,
}

/// What an expression tells.
pub struct Told {
    /// The place of its first byte.
    pub place: u32,
    /// The breaks in it of the rules of visibility, kinds and attributes.
    pub names: Items<Fault>,
    /// The breaks in it of the rules of types, aggregates and numbers.
    pub typing: Items<Fault>,
    /// The types that it can have.
    pub types: Types,
    /// Whether it is globally static (9.4.3).
    pub is_static: bool,
    /// Whether its value hangs on that of a signal or variable.
    pub reads: bool,
    pub form: Form,
}

impl Drop for Told {
    fn drop(self) {
        let Told {
            place: _,
            names: _names,
            typing: _typing,
            types: _types,
            is_static: _,
            reads: _,
            form: _,
        } = self;
    }
}

impl Told {
    /// It comes to have these types.
    pub(crate) fn retype(&mut self, types: Types)
        ensures { self.new ≡ record self.old { types = types } }
    {
        self.types = types;
    }

    /// The breaks in it of the rules of visibility, kinds and attributes, and those of types, aggregates and numbers.
    pub fn into_faults(self) -> (Items<Fault>, Items<Fault>)
        ensures { result ≡ (self.names, self.typing) }
    {
        let Told {
            place: _,
            names,
            typing,
            types: _types,
            is_static: _,
            reads: _,
            form: _,
        } = self;
        (names, typing)
    }
}

/// What follows an identifier in a name, told.
#[derive(Drop)]
pub enum PartTold {
    Index(Told),
    Slice(Told, Told),
    Attribute(Token),
}

/// An operator and its right operand, told.
#[derive(Drop)]
pub struct LinkTold {
    pub operator: Operator,
    pub right: Told,
}

/// A choice, told.
#[derive(Drop)]
pub enum ChoiceTold {
    Value(Told),
    Range(Told, Told),
    /// The place of the word `others`.
    Others(u32),
}

/// An element of an aggregate, told.
#[derive(Drop)]
pub struct ItemTold {
    pub choices: Items<ChoiceTold>,
    pub value: Told,
}

/// A discrete range, told: its bounds, or the name that stands for them.
#[derive(Drop)]
pub enum BoundsTold {
    Range(Told, Told),
    Name(NameTold),
}
