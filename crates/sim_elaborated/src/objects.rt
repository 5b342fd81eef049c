//! The objects of a design (IEEE Std 1076-2008, clause 6.4). Each names the spelling of its name and the line of the
//! identifier that declares it.

ghost use Rattle.std.specs.Prelude.{◌≡◌};
ghost use Rattle.sim_elaborated.specs.Kinds as spec;

use vhpi_values::Val;

/// The mode of a port (6.5.2).
#[derive(Clone, Copy, PartialEq, Eq)]
pub enum Mode {
    In,
    Out,
    Inout,
}

/// What a net is.
#[derive(Clone, Copy, PartialEq, Eq)]
pub enum NetKind {
    Port(Mode),
    Signal,
}

impl NetKind {
    /// Whether it is a port.
    pub fn is_port(self) -> bool
        ensures { result ≡ spec.is_port self }
    {
        match self {
            NetKind::Port(_) => true,
            NetKind::Signal => false,
        }
    }

    /// Whether it is a port that is a source of what it is connected to: an out or inout port.
    pub fn drives(self) -> bool
        ensures { result ≡ spec.drives self }
    {
        matches!(self, NetKind::Port(Mode::Out) | NetKind::Port(Mode::Inout))
    }

    /// Whether it is a port that takes its value from what it is connected to: an in or inout port.
    pub fn takes(self) -> bool
        ensures { result ≡ spec.takes self }
    {
        matches!(self, NetKind::Port(Mode::In) | NetKind::Port(Mode::Inout))
    }
}

/// What a port of an instance is connected to (6.5.7): a whole signal or port of the instance above, or elements of
/// it. The first element of the port is connected to the element at `place` in `net`, and so on from left to right.
#[derive(Clone, Copy, PartialEq, Eq)]
pub struct PortEdge {
    pub net: u32,
    pub place: u32,
}

/// A port or signal of one instance (6.4.2.3). It has one element if it is scalar, else one for each index, from left
/// to right.
#[derive(Drop)]
pub struct Net {
    pub instance: u32,
    pub kind: NetKind,
    pub spelling: u32,
    pub line: u32,
    /// The number of its type.
    pub ty: u32,
    /// The value that it has where nothing drives it. For an in port that is given a constant it is that constant.
    pub default: Val,
    /// The number of its first element among those of all nets.
    pub first_element: u32,
    /// What it is connected to. A signal, a port of the root, an open port and one that is given a constant is
    /// connected to nothing.
    pub edge: Option<PortEdge>,
}

/// A generic constant of one instance (6.5.6.2).
#[derive(Drop)]
pub struct Generic {
    pub instance: u32,
    pub spelling: u32,
    pub line: u32,
    pub ty: u32,
    pub value: Val,
}

/// A constant of one instance, of its architecture or of one of its processes (6.4.2.2).
#[derive(Drop)]
pub struct Constant {
    pub ty: u32,
    pub value: Val,
}

/// A variable of one process (6.4.2.4), with the value that it has at first.
#[derive(Drop)]
pub struct Variable {
    pub process: u32,
    pub spelling: u32,
    pub line: u32,
    pub ty: u32,
    pub initial: Val,
}
