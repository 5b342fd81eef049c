//! Laws of what the units of a design file mean where no static rule is broken: nothing in them is without a meaning
//! (IEEE Std 1076-2008, clauses 3 to 13). Each law is the contract of a function that does nothing.
#![tactic(auto)]

pub mod laws;
