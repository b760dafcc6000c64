// Outcomes one by one, out of the words that they are told as: 1 where the outcome also comes out at once, else 0; then
// its values, which are all registers, thread by thread, and memory.
ghost use Rattle.std.specs.Prelude.{◌≤◌};

use cli::shown::{PLACES, REGISTERS};
use std::alloc::{AllocError, Global};

// Ordered by its values.
#[derive(PartialEq, Eq, PartialOrd, Ord, Drop)]
pub struct Row<'a> {
    pub values: &'a [u32],
    pub at_once: bool,
}

fn row_of(words: &[u32]) -> Row<'_> {
    match words {
        [] => Row {
            values: &[],
            at_once: false,
        },
        [bit, values @ ..] => Row {
            values,
            at_once: *bit == 1,
        },
    }
}

// How many words each outcome of a program of so many threads takes: a bit, all registers, memory.
fn width(threads: u32) -> usize
    ensures { 9 ≤ result }
{
    1 + (REGISTERS * threads.min(4) + PLACES) as usize
}

// The first `count` outcomes that stand in `out`, sorted.
pub fn sorted(
    heap: Global,
    out: &[u32],
    threads: u32,
    count: usize,
) -> Result<Vec<Row<'_>>, AllocError> {
    let mut rows = Vec::with_capacity(heap, count)?;
    rows.extend(out.chunks_exact(width(threads)).take(count).map(row_of))?;
    rows.sort_unstable();
    Ok(rows)
}
