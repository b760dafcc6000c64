// Tools over lent words and bits, with no word of the subject.
#![tactic(auto)]

pub mod hash;
pub mod nibbles;
pub mod shape;
pub mod table;
