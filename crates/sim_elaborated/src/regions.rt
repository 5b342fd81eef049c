//! What a design shares among its instances: spellings, design units, and the names of a declarative region.

use sqlite_items::Items;

/// Consecutive numbers.
#[derive(Clone, Copy, PartialEq, Eq)]
pub struct Span {
    pub first: u32,
    pub count: u32,
}

/// A name as it is written where it is declared, and in lower case.
#[derive(Drop)]
pub struct Spelling {
    pub written: Items<u8>,
    pub lower: Items<u8>,
}

/// A unit of the design file (13.1), by the number of its spelling. Its line is that of its first token, from 1.
#[derive(Clone, Copy, PartialEq, Eq)]
pub enum DesignUnit {
    Entity {
        spelling: u32,
        line: u32,
    },
    /// An architecture with the number of its entity among the units of the file.
    Architecture {
        spelling: u32,
        line: u32,
        entity: u32,
        /// It has the attribute FOREIGN (20.2).
        is_foreign: bool,
    },
}

/// What a name stands for in an instance, by its place there.
#[derive(Clone, Copy, PartialEq, Eq)]
pub enum Member {
    /// An instance below, by its place among the children.
    Instance(u32),
    Process(u32),
    /// A port or a signal.
    Net(u32),
    Generic(u32),
}

/// A name that is declared in a region, by the number of its spelling.
#[derive(Clone, Copy, PartialEq, Eq)]
pub struct NamedMember {
    pub spelling: u32,
    pub member: Member,
}

/// What all instances of an architecture share (12.1).
#[derive(Drop)]
pub struct Region {
    /// The entity and the architecture, by their numbers among the units of the design file.
    pub entity: u32,
    pub architecture: u32,
    /// Its instances, processes, ports, signals and generics, by their names in lower case in the order of their
    /// bytes.
    pub names: Items<NamedMember>,
}
