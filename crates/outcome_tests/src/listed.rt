// The public call with memory of its own: how many outcomes there are with and without waiting stores, and the rows.
ghost use Rattle.std.specs.Prelude.{◌≤◌};

use fences::listing::{Listed, outcomes};
use std::alloc::{AllocError, Global};

// What the call answered, and the words that it wrote.
#[derive(Drop)]
pub struct Answer {
    pub listed: Listed,
    pub rows: Vec<u32>,
}

// The call with room for as many outcomes as fit 65,536 words.
pub fn ask(heap: Global, words: &[u32], most: u32, lent: usize) -> Result<Answer, AllocError> {
    let mut work = vec![in heap; 7u32; lent]?;
    let mut rows = vec![in heap; 9u32; 65536]?;
    let listed = outcomes(words, most, rows.as_mut_slice(), work.as_mut_slice());
    Ok(Answer { listed, rows })
}

// How many words the row of an outcome of a program of so many threads takes.
pub(crate) fn width(threads: usize) -> usize
    ensures { 9 ≤ result }
{
    9 + 4 * threads.min(4)
}

// How many of the first `count` rows say that they also come out at once.
pub fn at_once(rows: &[u32], threads: usize, count: usize) -> usize {
    rows.chunks_exact(width(threads))
        .take(count)
        .filter(|row| matches!(**row, [1, ..]))
        .count()
}
