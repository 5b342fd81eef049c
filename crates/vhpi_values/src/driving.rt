/// How a signal assignment edits the projected output waveform (10.5.2.1).
#[derive(Clone, Copy, Debug, PartialEq, Eq)]
pub enum DelayMode {
    /// Each new transaction reaches the signal, however short its pulse is.
    Transport,
    /// Pulses shorter than the rejection limit don't.
    Inertial,
}

/// A value of SEVERITY_LEVEL.
#[derive(Clone, Copy, Debug, PartialEq, Eq)]
pub enum Severity {
    Note,
    Warning,
    Error,
    Failure,
}

/// A transaction: the value that a driver is to have from a time on (14.7.2).
#[derive(Clone, Copy, Debug, PartialEq, Eq)]
pub struct Transaction {
    /// The value of one element: a position, an integer or femtoseconds.
    pub value: i64,
    /// The time in femtoseconds.
    pub time: u64,
}
