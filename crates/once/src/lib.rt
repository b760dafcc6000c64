// Which of the explored states are come to at once, where each store goes to memory as it is done; and which are
// finished.
#![tactic(auto)]

pub mod finished;
pub mod marks;
