//! The statements of a process (IEEE Std 1076-2008, clause 10).

use crate::expressions::{Choice, Expr, Name};
use sqlite_items::Items;
use vhpi_values::{DelayMode, Severity};

/// The statements of a process (11.3), once for all instances of the architecture that it stands in. A concurrent
/// signal assignment (11.6) is a process too.
///
/// A process with a sensitivity list, `process (all)` and a concurrent assignment end with a wait of their own, whose
/// line is that of the process and whose number is the number of the statements before it.
#[derive(Drop)]
pub struct ProcessBody {
    /// Its label, or `_p0`, `_p1` and so on for one without a label, by the number of its spelling.
    pub spelling: u32,
    /// The line of its first token, from 1.
    pub line: u32,
    pub is_postponed: bool,
    pub statements: Items<Statement>,
    /// Its waits, in the order of the text.
    pub waits: Items<Wait>,
}

/// A wait statement (10.2). The elements that it is sensitive to are those of each process, since bounds of them may
/// be generics.
#[derive(Drop)]
pub struct Wait {
    /// Its number among the statements of the process in the order of the text, those inside others too.
    pub number: u32,
    pub line: u32,
    pub condition: Option<Expr>,
    pub time: Option<Expr>,
    /// The `for` loops around it, from the outermost.
    pub loops: Items<LoopAround>,
}

/// A `for` loop around a wait.
#[derive(Clone, Copy, PartialEq, Eq)]
pub struct LoopAround {
    /// The type of the bounds, by its number in the design, not narrowed to the loop's range.
    pub ty: u32,
    pub is_ascending: bool,
}

/// A sequential statement. Its line is that of its first token, from 1.
#[cycle(statement)]
#[derive(Drop)]
pub struct Statement {
    pub line: u32,
    pub body: StatementBody,
}

/// What a statement does.
#[cycle(statement)]
#[derive(Drop)]
pub enum StatementBody {
    /// A wait, by its place among those of the process.
    Wait(u32),
    Assert(Assertion),
    Report(Report),
    Signal(SignalAssignment),
    /// The target and the value of a variable assignment (10.6).
    Variable(Name, Expr),
    /// The branches of an if statement (10.8), and the statements after `else`.
    If(Items<Branch>, Items<Statement>),
    /// A case statement (10.9).
    Case(Expr, Items<Alternative>),
    /// A loop (10.10).
    Loop(Scheme, Items<Statement>),
    /// A next statement (10.11): how many loops stand between it and the loop that is meant, 0 for the innermost,
    /// and its condition.
    Next(u32, Option<Expr>),
    /// An exit statement (10.12), as a next statement.
    Exit(u32, Option<Expr>),
    Null,
}

/// A condition with the statements that are run where it holds.
#[cycle(statement)]
#[derive(Drop)]
pub struct Branch {
    pub condition: Expr,
    pub statements: Items<Statement>,
}

/// A `when` of a case statement.
#[cycle(statement)]
#[derive(Drop)]
pub struct Alternative {
    pub choices: Items<Choice>,
    pub statements: Items<Statement>,
}

/// An assertion (10.3). Its text is there also where the design file gives none.
#[derive(Drop)]
pub struct Assertion {
    pub condition: Expr,
    pub report: Report,
}

/// A report (10.4).
#[derive(Drop)]
pub struct Report {
    pub severity: Severity,
    pub text: Items<u8>,
}

/// A signal assignment (10.5).
#[derive(Drop)]
pub struct SignalAssignment {
    /// A port or a signal, an element of it or a slice.
    pub target: Name,
    pub mode: DelayMode,
    /// The rejection limit; without one it is the first delay. A transport delay has none.
    pub reject: Option<Expr>,
    pub waveform: Items<WaveformElement>,
}

/// An element of a waveform (10.5.2.1): a value, and the delay after which it is to come, 0 where there is none.
#[derive(Drop)]
pub struct WaveformElement {
    pub value: Expr,
    pub after: Option<Expr>,
}

/// How often a loop runs (10.10).
#[derive(Drop)]
pub enum Scheme {
    Forever,
    While(Expr),
    /// The left bound, whether the direction is `to`, and the right bound.
    For(Expr, bool, Expr),
}
