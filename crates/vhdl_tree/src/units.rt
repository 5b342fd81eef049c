//! Concurrent statements and design units (IEEE Std 1076-2008, clauses 3, 11 and 13).

use crate::declarations::{Declaration, Mode, Subtype};
use crate::expressions::{Expr, Name};
use crate::statements::{Delay, Element, Statement};
use sqlite_items::Items;
use vhdl_tokens::Token;

/// What a process is sensitive to by its list (11.3).
#[derive(Drop)]
pub enum Sensitivity {
    Unlisted,
    /// `(all)`
    All,
    Names(Items<Name>),
}

/// A process (11.3).
#[derive(Drop)]
pub struct Process {
    pub postponed: bool,
    pub sensitivity: Sensitivity,
    pub declarations: Items<Declaration>,
    pub statements: Items<Statement>,
    pub end_name: Option<Token>,
}

/// A condition, and the waveform that is meant where it doesn't hold.
#[derive(Drop)]
pub struct Alternative {
    pub condition: Expr,
    pub otherwise: Items<Element>,
}

/// A concurrent signal assignment (11.6): a waveform, then `when` a condition `else` the next one, and at the
/// end a condition that may stand alone.
#[derive(Drop)]
pub struct ConcurrentAssignment {
    pub postponed: bool,
    pub target: Name,
    pub delay: Delay,
    pub waveform: Items<Element>,
    pub alternatives: Items<Alternative>,
    pub condition: Option<Expr>,
}

/// What a formal stands for.
#[derive(Drop)]
pub enum Actual {
    Expr(Expr),
    /// The word `open`.
    Open(Token),
}

/// An element of a generic or port map (6.5.7). It is positional where it has no formal.
#[derive(Drop)]
pub struct Association {
    pub formal: Option<Token>,
    pub actual: Actual,
}

/// An instance of an entity (11.7), with its library and its architecture where they are named.
#[derive(Drop)]
pub struct Instantiation {
    pub library: Option<Token>,
    pub entity: Token,
    pub architecture: Option<Token>,
    pub generics: Items<Association>,
    pub ports: Items<Association>,
}

/// What a concurrent statement is.
#[derive(Drop)]
pub enum ConcurrentBody {
    Process(Process),
    Assignment(ConcurrentAssignment),
    Instance(Instantiation),
}

/// A concurrent statement. Its line is that of its first token, from 1; its label is part of it.
#[derive(Drop)]
pub struct Concurrent {
    pub line: u32,
    pub label: Option<Token>,
    pub body: ConcurrentBody,
}

/// The declaration of generics in an entity (6.5.6.2).
#[derive(Drop)]
pub struct Generic {
    pub names: Items<Token>,
    pub subtype: Subtype,
    pub default: Option<Expr>,
}

/// The declaration of ports in an entity (6.5.6.3).
#[derive(Drop)]
pub struct Port {
    pub names: Items<Token>,
    pub mode: Mode,
    pub subtype: Subtype,
    pub default: Option<Expr>,
}

/// An entity (3.2). Its line is that of the word `entity`.
#[derive(Drop)]
pub struct Entity {
    pub line: u32,
    pub name: Token,
    pub generics: Items<Generic>,
    pub ports: Items<Port>,
    pub end_name: Option<Token>,
}

/// An architecture (3.3). Its line is that of the word `architecture`.
#[derive(Drop)]
pub struct Architecture {
    pub line: u32,
    pub name: Token,
    pub entity: Token,
    pub declarations: Items<Declaration>,
    pub statements: Items<Concurrent>,
    pub end_name: Option<Token>,
}

/// A use clause (12.4): the library, the package, and an identifier or the word `all`.
#[derive(Drop)]
pub struct Use {
    pub library: Token,
    pub package: Token,
    pub suffix: Token,
}

/// An item of a context clause (13.4).
#[derive(Drop)]
pub enum ContextClause {
    Library(Items<Token>),
    Use(Use),
}

/// A library unit (13.1).
#[derive(Drop)]
pub enum LibraryUnit {
    Entity(Entity),
    Architecture(Architecture),
}

/// A design unit (13.1): a library unit with its context clause.
#[derive(Drop)]
pub struct DesignUnit {
    pub context: Items<ContextClause>,
    pub unit: LibraryUnit,
}

/// A design file (13.1): its units, in the order of the text.
#[derive(Drop)]
pub struct DesignFile {
    pub units: Items<DesignUnit>,
}
