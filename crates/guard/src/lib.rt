// Runs under guards, over the states that are explored: which spot a move passes while something of its thread waits, the
// rule that leaves out what guards forbid, and all that a run passes.
#![tactic(auto)]

pub mod hits;
pub mod path;
pub mod rule;
