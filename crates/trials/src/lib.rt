// What the second answer says of known programs, and what the programs made at random are like.
#![tactic(auto)]

pub mod known;
#[cfg(test)]
mod tests;
