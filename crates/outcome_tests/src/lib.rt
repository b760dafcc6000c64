// Outcomes through the public call: known programs against what is published of them, the edges of the lent memory, and
// programs made at random against all orders of their reads and writes. And fences that are of no use.
#![tactic(auto)]

#[cfg(test)]
mod against_orders;
#[cfg(test)]
mod first_lines;
pub mod listed;
#[cfg(test)]
mod published;
