//! The readers of sequential statements (IEEE Std 1076-2008, clause 10).
#![tactic(auto)]

mod assignment;
mod compound;
mod readers;
mod sequence;
mod simple;
mod tables;
mod waveform;

pub use readers::Statements;
