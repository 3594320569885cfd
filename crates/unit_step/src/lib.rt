// One cycle of the unit: the table and the unit after it.
#![tactic(auto)]

pub mod step;
pub mod table;
