// The memory that is lent for an answer: 3,801,024 bytes, which leaves room within 4 MiB for the text, its names and what
// is printed.
use cli::lending::Lent;
use std::alloc::{AllocError, Global};

const WORK: usize = 950_000;

// Enough for every answer: moves, and behind them thread and instruction for each fence.
const OUT: usize = 256;

// So many states are allowed at the least: the most for which `WORK` is enough (`lending::work_for`).
const STATES: u32 = 6_908;

pub fn lent(heap: Global) -> Result<Lent, AllocError> {
    Lent::new(heap, STATES, WORK, OUT)
}
