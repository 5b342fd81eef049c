//! The design, its instances, and its processes with their drivers.

use crate::objects::{Constant, Generic, Net, Variable};
use crate::regions::{DesignUnit, Region, Span, Spelling};
use crate::statements::ProcessBody;
use sqlite_items::Items;
use vhpi_values::Ty;

/// An instance of an entity with an architecture. The first one is the root.
#[derive(Drop)]
pub struct Instance {
    /// The instance that it stands in; none for the root.
    pub parent: Option<u32>,
    /// Its label; for the root the name of the entity.
    pub spelling: u32,
    /// The line of its label, from 1; for the root that of the entity.
    pub line: u32,
    /// The region that it shares with other instances of its architecture.
    pub region: u32,
    pub generics: Span,
    pub constants: Span,
    pub ports: Span,
    /// The declared signals, whose numbers follow those of the ports.
    pub signals: Span,
    pub processes: Span,
    /// The instances that stand in it, in the order of the text.
    pub children: Items<u32>,
}

/// A process of one instance (11.3, 14.4).
#[derive(Drop)]
pub struct Process {
    pub instance: u32,
    /// Its statements, by their number among those of the design.
    pub body: u32,
    pub variables: Span,
    pub drivers: Span,
    /// What each wait of its body is sensitive to: elements by their numbers among those of all nets, each once, in
    /// spans that rise.
    pub sensitivity: Items<Items<Span>>,
}

/// A driver (14.7.2): the source of elements of one net in one process, which are those that the longest static
/// prefixes of its assignments cover.
#[derive(Drop)]
pub struct DriverSpecification {
    pub process: u32,
    pub net: u32,
    /// The places of these elements in the net, from left to right.
    pub places: Items<u32>,
    /// The number of its first element among those of all drivers.
    pub first_element: u32,
}

/// An instance whose architecture is foreign (20.2), by the number of its model among those of the design.
#[derive(Clone, Copy, PartialEq, Eq)]
pub struct ForeignBinding {
    pub instance: u32,
    pub model: u32,
}

/// A whole design.
#[derive(Drop)]
pub struct Design {
    /// The units of the design file, in the order of the text.
    pub units: Items<DesignUnit>,
    /// The names that the other lists refer to.
    pub spellings: Items<Spelling>,
    /// The types that the other lists refer to.
    pub types: Items<Ty>,
    pub regions: Items<Region>,
    pub bodies: Items<ProcessBody>,
    pub instances: Items<Instance>,
    pub generics: Items<Generic>,
    pub constants: Items<Constant>,
    pub nets: Items<Net>,
    pub processes: Items<Process>,
    pub variables: Items<Variable>,
    /// Without the drivers that foreign models create.
    pub drivers: Items<DriverSpecification>,
    /// The foreign instances, in their order.
    pub bindings: Items<ForeignBinding>,
    /// The models that foreign architectures name, each once.
    pub models: Items<Items<u8>>,
}
