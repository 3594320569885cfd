// Theorems about a trace that was recorded: what the reader gives back of it, and what mmurun prints of it.
#![tactic(auto)]
