//! What the expressions and names of a design mean: what each name denotes, and by the type that its place
//! asks, which of its meanings an expression has (IEEE Std 1076-2008, clauses 8, 9, 12.5 and 16.2). An
//! expression that breaks a static rule may have no meaning.
#![tactic(auto)]

mod attributes;
mod candidates;
mod literals;
mod names;
mod operators;
mod ranges;
mod settling;
mod trees;

pub use candidates::{
    Candidate, CandidateItem, CandidateLink, ChoiceCandidate, Denoted, Open, PartCandidate,
    RangeCandidate,
};
pub use names::{candidate_of, target_of};
pub use ranges::{choice_at, common_type, range_at};
pub use settling::settle;
pub use trees::{candidate, choice_candidate, denote, range_candidate};
