// A unit record as bytes that the caller keeps, and one cycle of it there.
#![tactic(auto)]

pub mod cycle;
pub mod in_place;
pub mod snapshot;
