//! Laws of the definitions of a run. Each is the contract of a function that does nothing.

ghost use Rattle.vhpi_kernel.specs.Laws.{EveryDesignRuns, OneJournal, SectionsRunOut};
ghost use Rattle.vhpi_kernel.specs.Worked.{PulseRuns};

/// Law: every design has a run under every plan, so that no statement about runs holds for want of one.
pub fn every_design_runs()
    ensures { EveryDesignRuns }
{}

/// Law: a design has one run under a plan: its journal and its end are determined.
pub fn one_journal()
    ensures { OneJournal }
{}

/// Law: each section that is done leaves fewer to come, so that every run comes to its end.
pub fn sections_run_out()
    ensures { SectionsRunOut }
{}

/// Law: the runs of a design of one pulse are those that were worked out by hand.
pub fn pulse_runs()
    ensures { PulseRuns }
{}
