// The public calls: all outcomes of a program, and the fewest fences for it.
#![tactic(auto)]

pub mod fewest;
pub mod finding;
pub mod listing;
pub mod looking;
pub mod looks;
pub mod refusals;
pub mod sizes;
pub mod telling;
