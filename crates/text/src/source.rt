// A program with its names, as it is read and printed.
use program::instructions::Instruction;

#[derive(Drop)]
pub struct Thread {
    pub name: String,
    pub code: Vec<Instruction>,
}

// The places' names in the order of their numbers; none where the places are named by numerals.
#[derive(Drop)]
pub struct Source {
    pub threads: Vec<Thread>,
    pub places: Vec<String>,
}
