// Outcomes as words.
#![tactic(auto)]

pub mod outcomes;
