// A selected command: what is decided in it.
#![tactic(auto)]

pub mod execute;
