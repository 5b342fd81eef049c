//! Expressions and names (IEEE Std 1076-2008, clauses 8 and 9).

ghost use Rattle.std.specs.Prelude.{◌≡◌};
ghost use Rattle.vhdl_tree.specs.Expressions.{same_operator};

use sqlite_items::{Boxed, Items};
use vhdl_tokens::Token;

/// An operator between two operands (9.2).
#[derive(Clone, Copy, Debug, PartialEq, Eq)]
pub enum Operator {
    And,
    Or,
    Xor,
    Xnor,
    Nand,
    Nor,
    Equal,
    NotEqual,
    Less,
    LessEqual,
    Greater,
    GreaterEqual,
    Add,
    Subtract,
    Concatenate,
    Multiply,
    Divide,
    Mod,
    Rem,
    Power,
}

impl Operator {
    /// Whether two operators are the same.
    #[tactic(auto, unfolding(crate::specs::Expressions::same_operator))]
    pub fn is(self, other: Operator) -> bool
        ensures { result ≡ same_operator self other }
    {
        self == other
    }
}

/// An operator before one operand (9.2).
#[derive(Clone, Copy, Debug, PartialEq, Eq)]
pub enum Unary {
    Plus,
    Minus,
    Abs,
    Not,
}

/// The direction of a range (5.2.1).
#[derive(Clone, Copy, Debug, PartialEq, Eq)]
pub enum Direction {
    To,
    Downto,
}

/// An expression (9.1). The place of one that has no token of its own is the place of the first byte of its
/// production, from 0, which may be a bracket.
#[cycle(expression)]
#[derive(Drop)]
pub enum Expr {
    Name(Name),
    /// An integer, and its unit where it is a time (9.3.2).
    Number(Token, Option<Token>),
    /// A character, string or bit string literal.
    Literal(Token),
    /// The place, the operator and its operand.
    Unary(u32, Unary, Boxed<Expr>),
    /// The place, the first operand, and each operator of one precedence with its right operand, from left
    /// to right. There is at least one; `nand`, `nor`, a relation and `**` stand alone.
    Chain(u32, Boxed<Expr>, Items<Link>),
    /// The place of the bracket, and the elements (9.3.3).
    Aggregate(u32, Items<Item>),
}

/// An operator and its right operand.
#[cycle(expression)]
#[derive(Drop)]
pub struct Link {
    pub operator: Operator,
    pub right: Expr,
}

/// An identifier and what follows it (8.1).
#[cycle(expression)]
#[derive(Drop)]
pub struct Name {
    pub identifier: Token,
    pub parts: Items<Part>,
}

/// What follows an identifier in a name.
#[cycle(expression)]
#[derive(Drop)]
pub enum Part {
    /// An index, or the argument of a call or attribute.
    Index(Expr),
    Slice(Expr, Direction, Expr),
    /// The word after the apostrophe: an identifier, or the reserved word `range`.
    Attribute(Token),
}

/// An element association of an aggregate (9.3.3). There are no choices where it is positional.
#[cycle(expression)]
#[derive(Drop)]
pub struct Item {
    pub choices: Items<Choice>,
    pub value: Expr,
}

/// A choice of an aggregate or of a case statement (9.3.3, 10.9).
#[cycle(expression)]
#[derive(Drop)]
pub enum Choice {
    Value(Expr),
    Range(Expr, Direction, Expr),
    /// The word `others`.
    Others(Token),
}
