// Which cycle is what: refusals 2 and 1, the reset line, and then the status, which decides.
#![tactic(auto)]

pub mod refusals;
pub mod status;
