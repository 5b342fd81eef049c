//! What an expression can mean before its place says which type is asked.

use sqlite_items::{Boxed, Items};
use vhdl_names_overloads::{Meanings, Types};
use vhdl_names_typing::TypeAttribute;
use vhdl_tokens::Token;
use vhdl_tree::{Direction, Operator, Unary};
use vhdl_units::{BaseType, ChoiceValue, Function, Object, PartValue, Reference, Value};

/// An expression before its place says which of its types is asked.
#[cycle(candidate)]
#[derive(Drop)]
pub struct Candidate {
    /// The types that it can have.
    pub types: Types,
    /// Whether it is globally static (9.4.3).
    pub is_static: bool,
    pub form: Open,
}

/// What is known of an expression before its type is.
#[cycle(candidate)]
#[derive(Drop)]
pub enum Open {
    /// It has no more than one type, and this is what it means then.
    Value(Value),
    /// Overloaded enumeration literals (9.3.2, 12.5).
    Literals(Meanings),
    /// The characters of a string or bit string literal.
    Text(Items<u8>),
    Unary(Unary, Boxed<Candidate>),
    /// The type that the operands of a relation share, where the operator is one; the first operand, and the
    /// links.
    Chain(Option<BaseType>, Boxed<Candidate>, Items<CandidateLink>),
    Aggregate(Items<CandidateItem>),
}

/// An operator and its right operand.
#[cycle(candidate)]
#[derive(Drop)]
pub struct CandidateLink {
    pub operator: Operator,
    pub right: Candidate,
}

/// An element of an aggregate. Its choices are of INTEGER.
#[cycle(candidate)]
#[derive(Drop)]
pub struct CandidateItem {
    pub choices: Items<ChoiceValue>,
    /// Whether the choices and the value are globally static.
    pub is_static: bool,
    pub value: Candidate,
}

/// A choice before its place says which type is asked.
#[derive(Drop)]
pub enum ChoiceCandidate {
    Value(Candidate),
    Range(Candidate, Direction, Candidate),
    Others,
}

/// What follows an identifier in a name.
#[derive(Drop)]
pub enum PartCandidate {
    Index(Candidate),
    Slice(Candidate, Direction, Candidate),
    /// The word after the apostrophe.
    Attribute(Token),
}

/// What a name denotes.
#[derive(Drop)]
pub enum Denoted {
    /// Nothing that it could mean in an expression.
    Unknown,
    /// Enumeration literals, overloaded where there are several.
    Literals(Meanings),
    /// An object, an element of it or a slice: the object, what follows its name, the type of what is named, and
    /// whether all that follows is globally static.
    Object(Object, Items<PartValue>, BaseType, bool),
    Subtype(BaseType),
    /// A function without its argument.
    Function(Function),
    /// An attribute of a type without its argument.
    TypeAttribute(TypeAttribute, BaseType),
    /// The range of an object's index.
    Range(Reference),
    /// A value of one type, and whether it is globally static.
    Value(Value, BaseType, bool),
}

/// A discrete range before its place says which type is asked.
#[derive(Drop)]
pub enum RangeCandidate {
    Bounds(Candidate, Direction, Candidate),
    Name(Denoted),
}
