//! Expressions with their types, and names with what they denote (IEEE Std 1076-2008, clauses 8 and 9).

use crate::{BaseType, Function, Object};
use sqlite_items::{Boxed, Items};
use vhdl_tree::{Direction, Operator, Unary};

/// An attribute of an object (16.2): of a signal, or of an array.
#[derive(Clone, Copy, Debug, PartialEq, Eq)]
pub enum ObjectAttribute {
    Event,
    Active,
    LastValue,
    Left,
    Right,
    High,
    Low,
    Length,
}

/// An expression with the type that its place asks of it (9.1, 12.5).
#[cycle(value)]
#[derive(Drop)]
pub enum Value {
    /// It has no such meaning, so that a static rule is broken.
    Unknown,
    /// An integer literal (9.3.2).
    Integer(u32),
    /// A literal of TIME, in femtoseconds.
    Time(u64),
    /// An enumeration literal: its type, and its position there from 0.
    Literal(BaseType, usize),
    /// A string or bit string literal: its type, and its characters, each a literal of the element type.
    Text(BaseType, Items<u8>),
    /// An object, an element of it or a slice.
    Object(Reference),
    /// An attribute of an object. `'last_value` is of the object's type, `'event` and `'active` are of
    /// BOOLEAN, the others of INTEGER.
    Attribute(Reference, ObjectAttribute),
    /// A call of a function with its argument.
    Call(Function, Boxed<Value>),
    /// The time at which the design is (16.3).
    Now,
    /// The position of a value of an enumeration type.
    Position(BaseType, Boxed<Value>),
    /// The value of an enumeration type at a position.
    At(BaseType, Boxed<Value>),
    /// An operator before its operand, both of this type (9.2).
    Unary(Unary, BaseType, Boxed<Value>),
    /// Operators of one precedence from left to right, and the type that the last one gives (9.2).
    Chain(BaseType, Boxed<Value>, Items<LinkValue>),
    /// An aggregate of this type (9.3.3).
    Aggregate(BaseType, Items<ItemValue>),
}

/// An object, an element of it or a slice, and the type of what is named (8.1).
#[cycle(value)]
#[derive(Drop)]
pub struct Reference {
    pub object: Object,
    pub parts: Items<PartValue>,
    pub base: BaseType,
}

/// What follows the name of an object. Each part says of its own expressions alone whether they are globally static
/// (9.4.3); a name is so far known before the run as all its parts are, from the left.
#[cycle(value)]
#[derive(Drop)]
pub enum PartValue {
    /// An index, and whether its expression is globally static.
    Index(Value, bool),
    /// The bounds of a slice, and whether both are globally static.
    Slice(Value, Direction, Value, bool),
}

/// An operator and its right operand.
#[cycle(value)]
#[derive(Drop)]
pub struct LinkValue {
    pub operator: Operator,
    pub right: Value,
}

/// An element association of an aggregate (9.3.3). There are no choices where it is positional.
#[cycle(value)]
#[derive(Drop)]
pub struct ItemValue {
    pub choices: Items<ChoiceValue>,
    pub value: Value,
}

/// A choice of an aggregate or of a case statement (9.3.3, 10.9).
#[cycle(value)]
#[derive(Drop)]
pub enum ChoiceValue {
    Value(Value),
    Range(Value, Direction, Value),
    Others,
}

/// A discrete range (5.3.2.1).
pub enum RangeValue {
    /// It has no meaning, so that a static rule is broken.
    Unknown,
    Bounds(Value, Direction, Value),
    /// The range of an array's index.
    Of(Reference),
}

impl Drop for RangeValue {
    fn drop(self) {
        match self {
            RangeValue::Unknown => {}
            RangeValue::Bounds(left, _, right) => {
                drop(left);
                drop(right);
            }
            RangeValue::Of(reference) => drop(reference),
        }
    }
}
