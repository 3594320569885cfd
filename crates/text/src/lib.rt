// The text of a trace, as mmurun prints it: numbers, the fields of a line, lines, and the whole.
#![tactic(auto)]

pub mod fields;
pub mod lines;
pub mod listing;
pub mod numbers;
