//! Subtypes and declarations (IEEE Std 1076-2008, clauses 5 and 6).

use crate::expressions::{Direction, Expr, Name};
use sqlite_items::Items;
use vhdl_tokens::Token;

/// A discrete range (5.3.2.1): two bounds, or a name that stands for them.
#[derive(Drop)]
pub enum Bounds {
    Range(Expr, Direction, Expr),
    Name(Name),
}

/// What narrows a type in a subtype indication.
#[derive(Drop)]
pub enum Constraint {
    /// `range` and the bounds of a scalar.
    Range(Bounds),
    /// The bounds of an array's index.
    Index(Bounds),
}

/// A subtype indication (6.3).
#[derive(Drop)]
pub struct Subtype {
    pub mark: Token,
    pub constraint: Option<Constraint>,
}

/// The mode of a port (6.5.2). One without a mode is of mode `in`.
#[derive(Clone, Copy, Debug, PartialEq, Eq)]
pub enum Mode {
    In,
    Out,
    Inout,
}

/// The declaration of an enumeration type (5.2.2): each literal is an identifier or a character.
#[derive(Drop)]
pub struct TypeDeclaration {
    pub name: Token,
    pub literals: Items<Token>,
}

/// The declaration of a subtype (6.3).
#[derive(Drop)]
pub struct SubtypeDeclaration {
    pub name: Token,
    pub subtype: Subtype,
}

/// The declaration of constants (6.4.2.2).
#[derive(Drop)]
pub struct ConstantDeclaration {
    pub names: Items<Token>,
    pub subtype: Subtype,
    pub value: Expr,
}

/// The declaration of signals or variables (6.4.2.3, 6.4.2.4).
#[derive(Drop)]
pub struct ObjectDeclaration {
    pub names: Items<Token>,
    pub subtype: Subtype,
    pub initial: Option<Expr>,
}

/// An attribute of an architecture (7.2).
#[derive(Drop)]
pub struct AttributeSpecification {
    pub attribute: Token,
    pub architecture: Token,
    pub value: Expr,
}

/// A declaration of an architecture or of a process.
#[derive(Drop)]
pub enum Declaration {
    Type(TypeDeclaration),
    Subtype(SubtypeDeclaration),
    Constant(ConstantDeclaration),
    Signal(ObjectDeclaration),
    Variable(ObjectDeclaration),
    Attribute(AttributeSpecification),
}
