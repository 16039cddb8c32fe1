// One peer's work, counted in three ways that meet one contract, so that bench/ can time them against each other. The
// relay itself counts in place.
#![tactic(auto)]

pub mod bytewise;
mod copied;
pub mod copying;
pub mod in_place;
