//! A law of the first form. It is the contract of a function that does nothing.

ghost use Rattle.first_form.specs.FirstForm.{OneDesign};

/// Law: a tree stands for one design at most.
pub fn one_design()
    ensures { OneDesign }
{}
