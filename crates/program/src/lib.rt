// Programs in code: instructions, threads and programs; from words and to words.
#![tactic(auto)]

pub mod access;
pub mod instructions;
pub mod threads;
pub mod words;
