// Programs made at random, as words, for comparing two answers; and words that are mostly no program.
#![tactic(auto)]

pub mod programs;
pub mod random;
pub mod words;
