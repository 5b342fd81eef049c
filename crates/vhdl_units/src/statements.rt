//! Sequential statements (IEEE Std 1076-2008, clause 10).

use crate::BaseType;
use crate::declarations::Declared;
use crate::values::{ChoiceValue, RangeValue, Value};
use sqlite_items::Items;

/// A level of severity (10.3).
#[derive(Clone, Copy, Debug, PartialEq, Eq)]
pub enum Severity {
    Note,
    Warning,
    Error,
    Failure,
}

/// A sequential statement. Its line is that of its first token, from 1; its label is part of it.
#[cycle(statement)]
#[derive(Drop)]
pub struct ResolvedStatement {
    pub line: u32,
    pub label: Option<Declared>,
    pub body: ResolvedBody,
}

/// What a statement does.
#[cycle(statement)]
#[derive(Drop)]
pub enum ResolvedBody {
    Wait(ResolvedWait),
    Assert(ResolvedAssertion),
    Report(ResolvedReport),
    Signal(ResolvedAssignment),
    /// The target and the value of a variable assignment (10.6).
    Variable(Value, Value),
    If(ResolvedIf),
    Case(ResolvedCase),
    Loop(ResolvedLoop),
    Next(ResolvedJump),
    Exit(ResolvedJump),
    Null,
}

/// A wait statement (10.2). Without `on` there are no names.
pub struct ResolvedWait {
    pub on: Items<Value>,
    pub until: Option<Value>,
    pub time: Option<Value>,
}

impl Drop for ResolvedWait {
    fn drop(self) {
        let ResolvedWait { on, until, time } = self;
        drop(on);
        drop(until);
        drop(time);
    }
}

/// An assertion (10.3), with its text where it has one.
pub struct ResolvedAssertion {
    pub condition: Value,
    pub text: Option<Items<u8>>,
    pub severity: Severity,
}

impl Drop for ResolvedAssertion {
    fn drop(self) {
        let ResolvedAssertion {
            condition,
            text,
            severity: _,
        } = self;
        drop(condition);
        drop(text);
    }
}

/// A report (10.4).
#[derive(Drop)]
pub struct ResolvedReport {
    pub text: Items<u8>,
    pub severity: Severity,
}

/// How a delay is meant (10.5.2.1).
pub enum ResolvedDelay {
    Inertial,
    /// Inertial, with a limit of its own for what is rejected.
    Reject(Value),
    Transport,
}

impl Drop for ResolvedDelay {
    fn drop(self) {
        match self {
            ResolvedDelay::Inertial => {}
            ResolvedDelay::Reject(limit) => drop(limit),
            ResolvedDelay::Transport => {}
        }
    }
}

/// An element of a waveform (10.5.2.1): a value, and the delay after which it is to come.
pub struct ResolvedElement {
    pub value: Value,
    pub after: Option<Value>,
}

impl Drop for ResolvedElement {
    fn drop(self) {
        let ResolvedElement { value, after } = self;
        drop(value);
        drop(after);
    }
}

/// A signal assignment (10.5).
pub struct ResolvedAssignment {
    pub target: Value,
    pub delay: ResolvedDelay,
    pub waveform: Items<ResolvedElement>,
}

impl Drop for ResolvedAssignment {
    fn drop(self) {
        let ResolvedAssignment {
            target,
            delay,
            waveform,
        } = self;
        drop(target);
        drop(delay);
        drop(waveform);
    }
}

/// An if statement (10.8). Without `else` it has no other statements.
#[cycle(statement)]
#[derive(Drop)]
pub struct ResolvedIf {
    pub condition: Value,
    pub statements: Items<ResolvedStatement>,
    pub elsifs: Items<ResolvedElsif>,
    pub otherwise: Items<ResolvedStatement>,
}

/// An `elsif` with its statements.
#[cycle(statement)]
#[derive(Drop)]
pub struct ResolvedElsif {
    pub condition: Value,
    pub statements: Items<ResolvedStatement>,
}

/// A case statement (10.9).
#[cycle(statement)]
#[derive(Drop)]
pub struct ResolvedCase {
    pub subject: Value,
    pub arms: Items<ResolvedArm>,
}

/// A `when` of a case statement.
#[cycle(statement)]
#[derive(Drop)]
pub struct ResolvedArm {
    pub choices: Items<ChoiceValue>,
    pub statements: Items<ResolvedStatement>,
}

/// How often a loop runs (10.10).
pub enum ResolvedScheme {
    Forever,
    While(Value),
    /// The loop parameter, its type and its range.
    For(Declared, BaseType, RangeValue),
}

impl Drop for ResolvedScheme {
    fn drop(self) {
        match self {
            ResolvedScheme::Forever => {}
            ResolvedScheme::While(condition) => drop(condition),
            ResolvedScheme::For(parameter, _, range) => {
                drop(parameter);
                drop(range);
            }
        }
    }
}

/// A loop (10.10).
#[cycle(statement)]
#[derive(Drop)]
pub struct ResolvedLoop {
    pub scheme: ResolvedScheme,
    pub statements: Items<ResolvedStatement>,
}

/// A next or exit statement (10.11, 10.12).
pub struct ResolvedJump {
    /// How many of the loops around stand between the statement and the loop that is meant: 0 is the
    /// innermost.
    pub loops: usize,
    pub condition: Option<Value>,
}

impl Drop for ResolvedJump {
    fn drop(self) {
        let ResolvedJump {
            loops: _,
            condition,
        } = self;
        drop(condition);
    }
}
