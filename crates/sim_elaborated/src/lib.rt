//! The elaborated design: what a design file comes to after elaboration (IEEE Std 1076-2008, clause 14), as plain
//! data. It is the border between reading VHDL and running it: what a simulation, the information model, the journal
//! and a save file ask of a design stands here, and nothing in it changes while the design runs.
//!
//! Numbers count from 0 in the order of the design: instances in preorder; nets, generics, constants and processes by
//! instance and then in the order of the text; variables by process; drivers by process and then by net. Times are
//! femtoseconds. A process that stands in many instances has its statements once, in a [`ProcessBody`], which refers
//! to the objects of its instance by their places in it.
#![tactic(auto)]

mod design;
mod expressions;
mod objects;
mod regions;
mod statements;
mod states;

pub use design::{Design, DriverSpecification, ForeignBinding, Instance, Process};
pub use expressions::{
    AggregateBounds, Arithmetic, Association, BoundAttribute, Choice, Edge, Expr, Link, Logical,
    Name, Number, Object, Operator, Part, Relation, ShortCircuit, SignalAttribute, Unary,
};
pub use objects::{Constant, Generic, Mode, Net, NetKind, PortEdge, Variable};
pub use regions::{DesignUnit, Member, NamedMember, Region, Span, Spelling};
pub use statements::{
    Alternative, Assertion, Branch, LoopAround, ProcessBody, Report, Scheme, SignalAssignment,
    Statement, StatementBody, Wait, WaveformElement,
};
pub use states::ElementState;
