//! Laws and worked values of the definitions. Each is a call with an empty body.

ghost use Rattle.sim_nets.specs.Laws.{WalkGivesValue, SingleSourceIsKept, WorkedSources};

/// The walk along the sources of an element gives its value.
pub fn walk_gives_value()
    ensures { WalkGivesValue }
{}

/// A single source is taken as it is, also `'-'`, and no source leaves the default.
pub fn single_source_is_kept()
    ensures { SingleSourceIsKept }
{}

/// Two and nine sources, worked out by the table of the standard.
pub fn worked_sources()
    ensures { WorkedSources }
{}
