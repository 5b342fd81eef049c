//! Concurrent statements and design units (IEEE Std 1076-2008, clauses 3, 11 and 13).

use crate::Object;
use crate::declarations::{Declared, ResolvedDeclaration, ResolvedObjects};
use crate::statements::{ResolvedDelay, ResolvedElement, ResolvedStatement};
use crate::values::Value;
use sqlite_items::Items;

/// What a process is sensitive to by its list (11.3).
#[derive(Drop)]
pub enum ResolvedSensitivity {
    Unlisted,
    /// `(all)`
    All,
    Names(Items<Value>),
}

/// A process (11.3).
#[derive(Drop)]
pub struct ResolvedProcess {
    pub postponed: bool,
    pub sensitivity: ResolvedSensitivity,
    pub declarations: Items<ResolvedDeclaration>,
    pub statements: Items<ResolvedStatement>,
}

/// A condition, and the waveform that is meant where it doesn't hold.
#[derive(Drop)]
pub struct ResolvedAlternative {
    pub condition: Value,
    pub otherwise: Items<ResolvedElement>,
}

/// A concurrent signal assignment (11.6): a waveform, then `when` a condition `else` the next one, and at the
/// end a condition that may stand alone.
pub struct ResolvedConcurrentAssignment {
    pub postponed: bool,
    pub target: Value,
    pub delay: ResolvedDelay,
    pub waveform: Items<ResolvedElement>,
    pub alternatives: Items<ResolvedAlternative>,
    pub condition: Option<Value>,
}

impl Drop for ResolvedConcurrentAssignment {
    fn drop(self) {
        let ResolvedConcurrentAssignment {
            postponed: _,
            target,
            delay,
            waveform,
            alternatives,
            condition,
        } = self;
        drop(target);
        drop(delay);
        drop(waveform);
        drop(alternatives);
        drop(condition);
    }
}

/// What a formal stands for.
#[derive(Drop)]
pub enum ResolvedActual {
    Value(Value),
    Open,
}

/// An element of a generic or port map (6.5.7), with its formal.
#[derive(Drop)]
pub struct ResolvedAssociation {
    pub formal: Option<Object>,
    pub actual: ResolvedActual,
}

/// An instance of an entity (11.7): the number of the entity among those of the file, from 0, and the name of
/// its architecture in lower case, where one is named.
#[derive(Drop)]
pub struct ResolvedInstance {
    pub entity: Option<usize>,
    pub architecture: Option<Items<u8>>,
    pub generics: Items<ResolvedAssociation>,
    pub ports: Items<ResolvedAssociation>,
}

/// What a concurrent statement is.
#[derive(Drop)]
pub enum ResolvedConcurrentBody {
    Process(ResolvedProcess),
    Assignment(ResolvedConcurrentAssignment),
    Instance(ResolvedInstance),
}

/// A concurrent statement. Its line is that of its first token, from 1; its label is part of it.
#[derive(Drop)]
pub struct ResolvedConcurrent {
    pub line: u32,
    pub label: Option<Declared>,
    pub body: ResolvedConcurrentBody,
}

/// An entity (3.2), with its name as it is written. Its line is that of the word `entity`.
#[derive(Drop)]
pub struct ResolvedEntity {
    pub line: u32,
    pub name: Items<u8>,
    pub generics: Items<ResolvedObjects>,
    pub ports: Items<ResolvedObjects>,
}

/// An architecture (3.3), with its name as it is written and the number of its entity among those of the
/// file, from 0. Its line is that of the word `architecture`.
#[derive(Drop)]
pub struct ResolvedArchitecture {
    pub line: u32,
    pub name: Items<u8>,
    pub entity: Option<usize>,
    pub declarations: Items<ResolvedDeclaration>,
    pub statements: Items<ResolvedConcurrent>,
}

/// A design unit (13.1).
#[derive(Drop)]
pub enum ResolvedUnit {
    Entity(ResolvedEntity),
    Architecture(ResolvedArchitecture),
}

/// A design file (13.1): its units, in the order of the text. Those that are entities are numbered from 0.
#[derive(Drop)]
pub struct Units {
    pub units: Items<ResolvedUnit>,
}
