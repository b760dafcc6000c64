// The second answer, to compare the first with: all memory orders of a small program's reads and writes, what comes out
// of each, and all lists of fences, one after the other. There is no store buffer here and nothing is shared with the
// first but the reading of words. It is proved to be safe and to end; what it answers is believed by reading it, and
// compared.
#![tactic(auto)]

pub mod events;
pub mod fewest;
pub mod numbers;
pub mod outcomes;
pub mod threads;
