//! Sequential statements (IEEE Std 1076-2008, clause 10).

use crate::declarations::Bounds;
use crate::expressions::{Choice, Expr, Name};
use sqlite_items::Items;
use vhdl_tokens::Token;

/// A sequential statement. Its line is that of its first token, from 1; its label is part of it.
#[cycle(statement)]
#[derive(Drop)]
pub struct Statement {
    pub line: u32,
    pub label: Option<Token>,
    pub body: Body,
}

/// What a statement does.
#[cycle(statement)]
#[derive(Drop)]
pub enum Body {
    Wait(Wait),
    Assert(Assertion),
    Report(Report),
    Signal(SignalAssignment),
    Variable(VariableAssignment),
    If(If),
    Case(Case),
    Loop(Loop),
    Next(Jump),
    Exit(Jump),
    Null,
}

/// A wait statement (10.2), with the word `wait`. Without `on` there are no names.
#[derive(Drop)]
pub struct Wait {
    pub word: Token,
    pub on: Items<Name>,
    pub until: Option<Expr>,
    pub time: Option<Expr>,
}

/// An assertion (10.3), with the string and the severity that it names.
#[derive(Drop)]
pub struct Assertion {
    pub condition: Expr,
    pub text: Option<Token>,
    pub severity: Option<Token>,
}

/// A report (10.4).
#[derive(Drop)]
pub struct Report {
    pub text: Token,
    pub severity: Option<Token>,
}

/// How a delay is meant (10.5.2.1). Without a word it is inertial.
#[derive(Drop)]
pub enum Delay {
    Inertial,
    /// Inertial, with a limit of its own for what is rejected.
    Reject(Expr),
    Transport,
}

/// An element of a waveform (10.5.2.1): a value, and the delay after which it is to come.
#[derive(Drop)]
pub struct Element {
    pub value: Expr,
    pub after: Option<Expr>,
}

/// A signal assignment (10.5).
#[derive(Drop)]
pub struct SignalAssignment {
    pub target: Name,
    pub delay: Delay,
    pub waveform: Items<Element>,
}

/// A variable assignment (10.6).
#[derive(Drop)]
pub struct VariableAssignment {
    pub target: Name,
    pub value: Expr,
}

/// An if statement (10.8). Without `else` it has no other statements.
#[cycle(statement)]
#[derive(Drop)]
pub struct If {
    pub condition: Expr,
    pub statements: Items<Statement>,
    pub elsifs: Items<Elsif>,
    pub otherwise: Items<Statement>,
    pub end_name: Option<Token>,
}

/// An `elsif` with its statements.
#[cycle(statement)]
#[derive(Drop)]
pub struct Elsif {
    pub condition: Expr,
    pub statements: Items<Statement>,
}

/// A case statement (10.9).
#[cycle(statement)]
#[derive(Drop)]
pub struct Case {
    pub subject: Expr,
    pub arms: Items<Arm>,
    pub end_name: Option<Token>,
}

/// A `when` of a case statement.
#[cycle(statement)]
#[derive(Drop)]
pub struct Arm {
    pub choices: Items<Choice>,
    pub statements: Items<Statement>,
}

/// How often a loop runs (10.10).
#[derive(Drop)]
pub enum Scheme {
    Forever,
    While(Expr),
    /// The loop parameter and its range.
    For(Token, Bounds),
}

/// A loop (10.10).
#[cycle(statement)]
#[derive(Drop)]
pub struct Loop {
    pub scheme: Scheme,
    pub statements: Items<Statement>,
    pub end_name: Option<Token>,
}

/// A next or exit statement (10.11, 10.12), with the word `next` or `exit`.
#[derive(Drop)]
pub struct Jump {
    pub word: Token,
    pub label: Option<Token>,
    pub condition: Option<Expr>,
}
