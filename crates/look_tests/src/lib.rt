// The call `look` itself: programs whose answer is known, with the told run made again and the told fences put in; and
// what is written, and what is not, at the edges of the memory that is lent.
#![tactic(auto)]

pub mod asked;
#[cfg(test)]
mod edges;
pub mod texts;
#[cfg(test)]
mod worked;
