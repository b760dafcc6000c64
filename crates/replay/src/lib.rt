// Told runs, made again move by move by the machine's step.
#![tactic(auto)]

pub mod making;
pub mod reading;
pub mod runs;
