/// What an expression reads of one element of a net while the design runs. A design has none of it.
#[derive(Clone, Copy, PartialEq, Eq)]
pub struct ElementState {
    /// The value now: a position, an integer or femtoseconds.
    pub current: i64,
    /// The value before the last event, or the current one where there was none (16.2.4).
    pub last: i64,
    /// There is an event on it in this simulation cycle (14.7.3.1).
    pub has_event: bool,
    /// It is active in this simulation cycle.
    pub is_active: bool,
}
