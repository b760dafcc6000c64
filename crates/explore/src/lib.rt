// Exploration of all states that runs with waiting stores come to, breadth first, in lent words.
#![tactic(auto)]

pub mod enter;
pub mod expand;
pub mod explore;
pub mod grow;
pub mod visit;
