//! Expressions with the types of their operands, and names of objects (IEEE Std 1076-2008, clauses 8 and 9).
//!
//! A value is a list of whole numbers, one for each element: positions of an enumeration type, integers or
//! femtoseconds.

use sqlite_items::{Boxed, Items};
use vhpi_values::IndexRange;

/// An object of the instance or of the process that an expression stands in (6.4).
#[derive(Clone, Copy, PartialEq, Eq)]
pub enum Object {
    /// A generic, by its place among those of the instance.
    Generic(u32),
    /// A constant, by its place among those of the instance: first those of the architecture, then those of its
    /// processes.
    Constant(u32),
    /// A port or a signal, by its place among the nets of the instance.
    Net(u32),
    /// A variable, by its place among those of the process.
    Variable(u32),
    /// The parameter of a `for` loop, by the number of `for` loops around that loop.
    Parameter(u32),
}

/// An attribute of a signal, of an element of it or of a slice (16.2.4).
#[derive(Clone, Copy)]
pub enum SignalAttribute {
    Event,
    Active,
    LastValue,
}

/// An attribute of an array object or of a slice (16.2.3).
#[derive(Clone, Copy)]
pub enum BoundAttribute {
    Left,
    Right,
    High,
    Low,
    Length,
}

/// An edge of a signal of STD_ULOGIC.
#[derive(Clone, Copy)]
pub enum Edge {
    Rising,
    Falling,
}

/// A type of numbers (5.2.3, 5.2.4). What is calculated has to lie in it.
#[derive(Clone, Copy)]
pub enum Number {
    Integer,
    /// From 0 to TIME'HIGH, in femtoseconds.
    Time,
}

/// A logical operator between two operands (9.2.2).
#[derive(Clone, Copy)]
pub enum Logical {
    And,
    Or,
    Nand,
    Nor,
    Xor,
    Xnor,
}

/// A short-circuit operation (9.2.2): the right operand isn't evaluated where the left one decides.
#[derive(Clone, Copy)]
pub enum ShortCircuit {
    And,
    Or,
    Nand,
    Nor,
}

/// A relational operator (9.2.3).
#[derive(Clone, Copy)]
pub enum Relation {
    Equal,
    NotEqual,
    Less,
    LessOrEqual,
    Greater,
    GreaterOrEqual,
}

/// An arithmetic operator between two operands (9.2.5, 9.2.7, 9.2.8).
#[derive(Clone, Copy)]
pub enum Arithmetic {
    Add,
    Subtract,
    Multiply,
    Divide,
    Modulo,
    Remainder,
    Power,
}

/// An operator between two operands, with what it needs to know of their types (9.2).
#[derive(Clone, Copy)]
pub enum Operator {
    /// On BOOLEAN and BIT.
    ShortCircuit(ShortCircuit),
    /// On BOOLEAN, BIT and BIT_VECTOR, element by element.
    TwoValued(Logical),
    /// On STD_ULOGIC and its vectors, element by element.
    NineValued(Logical),
    /// Equality of values of one type, and order of scalars.
    Relation(Relation),
    /// Of arrays and elements (9.2.5).
    Concatenate,
    /// On INTEGER and TIME. The number is of the result.
    Arithmetic(Arithmetic, Number),
}

/// What is made of one operand.
#[derive(Clone, Copy)]
pub enum Unary {
    /// The sign `-` (9.2.6).
    Negate(Number),
    /// `abs` of an INTEGER (9.2.8).
    Absolute,
    /// `not` of BOOLEAN, BIT and BIT_VECTOR.
    TwoValuedNot,
    /// `not` of STD_ULOGIC and its vectors.
    NineValuedNot,
    /// The function TO_X01 of one STD_ULOGIC.
    ToX01,
    /// The value at a position of an enumeration type with this many literals: the attribute VAL (16.2.2).
    ValueAt(u32),
}

/// An expression (9.1).
#[cycle(expression)]
#[derive(Drop)]
pub enum Expr {
    /// A scalar literal (9.3.2): a position, an integer or femtoseconds.
    Number(i64),
    /// A string or bit string literal (9.3.2): the position of each element.
    Text(Items<u8>),
    /// An object, an element of it or a slice.
    Name(Name),
    /// An attribute of a signal. `'event` and `'active` are of BOOLEAN, `'last_value` is of the signal's type.
    Signal(SignalAttribute, Name),
    /// A bound or the length of an array.
    Bound(BoundAttribute, Name),
    /// The function RISING_EDGE or FALLING_EDGE of a signal.
    Edge(Edge, Name),
    /// The time at which the design is (16.3).
    Now,
    /// An operator before its operand, or a function or attribute of one value.
    Unary(Unary, Boxed<Expr>),
    /// Operators of one precedence from left to right (9.2).
    Chain(Boxed<Expr>, Items<Link>),
    /// An aggregate by position (9.3.3).
    Positional(Items<Expr>),
    /// An aggregate with choices (9.3.3).
    Named(AggregateBounds, Items<Association>),
}

/// An operator and its right operand.
#[cycle(expression)]
#[derive(Drop)]
pub struct Link {
    pub operator: Operator,
    pub right: Expr,
}

/// An object, an element of it or a slice (8.1).
#[cycle(expression)]
#[derive(Drop)]
pub struct Name {
    pub object: Object,
    pub parts: Items<Part>,
}

/// What follows the name of an object.
#[cycle(expression)]
#[derive(Drop)]
pub enum Part {
    /// An index (8.4).
    Index(Expr),
    /// The left end, whether the direction is `to`, and the right end of a slice (8.5).
    Slice(Expr, bool, Expr),
}

/// The bounds that an aggregate with choices finds at its place (9.3.3.3).
#[cycle(expression)]
#[derive(Drop)]
pub enum AggregateBounds {
    /// Its place gives none.
    Unknown,
    Known(IndexRange),
    /// Those of an array object or of a slice, such as the target of an assignment.
    Of(Name),
}

/// An element association with its choices (9.3.3.1).
#[cycle(expression)]
#[derive(Drop)]
pub struct Association {
    pub choices: Items<Choice>,
    pub value: Expr,
}

/// A choice of an aggregate or of a case statement (9.3.3, 10.9).
#[cycle(expression)]
#[derive(Drop)]
pub enum Choice {
    Value(Expr),
    /// The left end, whether the direction is `to`, and the right end.
    Range(Expr, bool, Expr),
    Others,
}
