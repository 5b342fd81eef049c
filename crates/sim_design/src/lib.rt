//! The elaborated design: what a design file comes to after elaboration (IEEE Std 1076-2008,
//! clause 14), as plain data. Places are counted from 0, times are femtoseconds, and the values of
//! an enumeration type are its positions.
#![tactic(auto)]

use sqlite_items::Items;

/// One instance of an entity with the architecture that is bound to it. Its name is in lower case:
/// for the root it is the entity's name.
#[derive(Debug, Drop)]
pub struct Instance {
    pub name: Items<u8>,
    pub architecture: Items<u8>,
}

/// One declared signal of one instance, of type BIT and so with one element. Its name is in lower
/// case. `default` is the position that it has before anything drives it.
#[derive(Debug, Drop)]
pub struct Net {
    pub instance: u32,
    pub name: Items<u8>,
    pub default: i64,
}

/// One element of a waveform (10.5.2.1): a position of the target's type, and the delay in
/// femtoseconds after which the target is to have it.
#[derive(Clone, Copy, Debug, Drop)]
pub struct WaveformElement {
    pub value: i64,
    pub delay: u64,
}

/// The process of one concurrent signal assignment (11.6) that reads no signal: it assigns its
/// waveform to the net `target` once, with inertial delay and the first delay as its rejection
/// limit, and then waits for good. It is the source of one driver, of the same number.
#[derive(Debug, Drop)]
pub struct Process {
    pub instance: u32,
    pub target: u32,
    pub waveform: Items<WaveformElement>,
}

/// A whole design. The first instance is the root. Nets are numbered by instance and then in the
/// order of the text, and so are processes and with them drivers.
#[derive(Debug, Drop)]
pub struct Design {
    pub instances: Items<Instance>,
    pub nets: Items<Net>,
    pub processes: Items<Process>,
}
