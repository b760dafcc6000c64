// The first answer, by the calls that are compared: `look` and `outcomes`, with memory lent to them.
use crate::answers::{Answer, Said};
use cli::lending::Lent;
use fences::looking::Verdict;
use fences::refusals::Refusal;
use orders::threads::Spot;
use std::alloc::{AllocError, Global};

// So many states are allowed, far more than a program has whose orders can all be made.
const STATES: u32 = 50_000;

// As many words as the calls ask for, for so many states.
const WORK: usize = 65_536 + 128 * 50_001;

// Room for all outcomes of such a program.
const OUT: usize = 262_144;

// What was said, and the moves of the run that was told.
#[derive(Drop)]
pub struct First {
    pub said: Said,
    pub moves: Vec<u32>,
}

pub fn lent(heap: Global) -> Result<Lent, AllocError> {
    Lent::new(heap, STATES, WORK, OUT)
}

// The first `count` rows of `out`, sorted.
fn rows(
    heap: Global,
    out: &[u32],
    words: &[u32],
    count: usize,
) -> Result<Vec<Vec<u32>>, AllocError> {
    let threads = words.first().copied().unwrap_or(0).min(4) as usize;
    let mut rows: Vec<Vec<u32>> = out
        .chunks_exact(9 + 4 * threads)
        .take(count)
        .map(|row| row.to_vec(heap))
        .try_collect(heap)?;
    rows.sort()?;
    Ok(rows)
}

// Thread and instruction of each fence.
fn spots(heap: Global, words: &[u32]) -> Result<Vec<Spot>, AllocError> {
    words
        .chunks_exact(2)
        .filter_map(|spot| match *spot {
            [thread, index] => Some(Spot {
                thread: thread as usize,
                index: index as usize,
            }),
            _ => None,
        })
        .collect(heap)
}

// What the two calls say of the words.
pub fn ask(heap: Global, lent: &mut Lent, words: &[u32]) -> Result<First, AllocError> {
    let looked = lent.look(words);
    // read before the second call, which writes to the same words
    let (moves, fences) = match looked {
        Ok(Verdict::Fences(told, count)) => (
            lent.told(0, told).to_vec(heap)?,
            Some(spots(heap, lent.told(told, count.saturating_mul(2)))?),
        ),
        _ => (Vec::new(heap), None),
    };
    let said = match (looked, lent.outcomes(words)) {
        (Err(Refusal::NoProgram), Err(Refusal::NoProgram)) => Said::NoProgram,
        (Err(Refusal::Crowded), Err(Refusal::Crowded)) => Said::Crowded,
        (Ok(_), Ok(listing)) => Said::Program(Answer {
            rows: rows(heap, lent.out.as_slice(), words, listing.outcomes)?,
            fences,
        }),
        (looked, listed) => Said::Apart(looked, listed),
    };
    Ok(First { said, moves })
}
