// What the programs share: their arguments, what they read, the calls that they ask, and what they say where they can't answer.
#![tactic(auto)]

pub mod arguments;
pub mod fenced;
pub mod input;
pub mod lending;
pub mod lines;
pub mod numbers;
pub mod running;
pub mod shown;
pub mod troubles;
