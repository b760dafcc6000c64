// The call with memory of its own. The words that it may write to are filled before with numbers that no answer has.
use fences::looking::{Looked, look};
use std::alloc::{AllocError, Global};
use std::ops::RangeInclusive;

#[derive(Drop)]
pub struct Asked {
    pub looked: Looked,
    pub out: Vec<u32>,
}

// Words that differ from each other, and from what is told: they are more than any word of that.
fn filling() -> RangeInclusive<u32> {
    1000..=u32::MAX
}

// The call with `room` words to write to and `lent` words lent.
pub fn ask(
    heap: Global,
    words: &[u32],
    most: u32,
    room: u32,
    lent: usize,
) -> Result<Asked, AllocError> {
    let mut out: Vec<u32> = filling().take(room as usize).collect(heap)?;
    let mut work = vec![in heap; 7u32; lent]?;
    let looked = look(words, most, out.as_mut_slice(), work.as_mut_slice());
    Ok(Asked { looked, out })
}

// Whether the words from `at` on are as they were filled.
pub fn unchanged(out: &[u32], at: usize) -> bool {
    out.iter()
        .zip(filling())
        .skip(at)
        .all(|(word, filled)| *word == filled)
}
