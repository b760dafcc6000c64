// The memory that is lent for an answer: 3,840,000 bytes, which leaves room within 4 MiB for the text, its names and the
// sorted rows.
use cli::lending::Lent;
use std::alloc::{AllocError, Global};

const WORK: usize = 880_000;

const OUT: usize = 80_000;

// So many states are allowed at the least: the most for which `WORK` is enough (`lending::work_for`).
const STATES: u32 = 6_362;

pub fn lent(heap: Global) -> Result<Lent, AllocError> {
    Lent::new(heap, STATES, WORK, OUT)
}
