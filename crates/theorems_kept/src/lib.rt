// Theorems about a unit, and a board of units, kept in bytes and stepped through the C interface.
#![tactic(auto)]
