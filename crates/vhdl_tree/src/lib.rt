//! The syntax tree of a VHDL design file, as plain data: the picture of the language. Names and literals
//! stay the tokens that they are in the text, with their places, lines and spelling. A bracket round a
//! single expression has no node of its own, and operators of one precedence are one list.
#![tactic(auto)]

mod declarations;
mod expressions;
mod statements;
mod units;

pub use declarations::{
    AttributeSpecification, Bounds, ConstantDeclaration, Constraint, Declaration, Mode,
    ObjectDeclaration, Subtype, SubtypeDeclaration, TypeDeclaration,
};
pub use expressions::{Choice, Direction, Expr, Item, Link, Name, Operator, Part, Unary};
pub use statements::{
    Arm, Assertion, Body, Case, Delay, Element, Elsif, If, Jump, Loop, Report, Scheme,
    SignalAssignment, Statement, VariableAssignment, Wait,
};
pub use units::{
    Actual, Alternative, Architecture, Association, Concurrent, ConcurrentAssignment,
    ConcurrentBody, ContextClause, DesignFile, DesignUnit, Entity, Generic, Instantiation,
    LibraryUnit, Port, Process, Sensitivity, Use,
};
