// Searches over an explored graph whose successors are kept: numbered nodes and moves, which edges may be taken, and
// what they cost.
#![tactic(auto)]

pub mod rules;
pub mod search;
pub mod walks;
