// What both calls do first: the words are read as a program, and its states are found in the lent words.
ghost use Rattle.std.specs.Prelude.{◌≤◌, length};
ghost use Rattle.program.specs.Meaning.{program};
ghost use Rattle.fences.specs.Finding.{Admitted, FoundIn};

use crate::refusals::Refusal;
use crate::sizes::states_that_fit;
use explore::explore::explore;
use program::threads::Program;
use program::words::from_words;

// All states of a program with their edges, and the lent words that are left.
#[derive(Drop)]
pub struct Found<'w> {
    pub n: usize,
    pub queue: &'w [u32],
    pub edges: &'w [u32],
    pub rest: &'w mut [u32],
}

// The program that the words are, where enough words are lent for so many states.
pub(crate) fn admitted(words: &[u32], most: u32, lent: usize) -> Result<Program, Refusal>
    ensures { Admitted words.now most lent result }
{
    if lent < 65536 + 128 * (most as usize + 1) {
        return Err(Refusal::Few);
    }
    from_words(words).ok_or(Refusal::NoProgram)
}

// The states of a program, as many as the lent words hold.
pub(crate) fn find_states<'w>(p: &Program, work: &'w mut [u32]) -> Result<Found<'w>, Refusal>
    requires { 65536 ≤ length work.old }
    ensures { FoundIn (program p.now) (length work.old) result }
{
    let threads = p.count();
    let words = 1 + 3 * threads;
    let limit = states_that_fit(threads, work.len());
    let (key, rest) = work.split_at_mut(words);
    let (queue, rest) = rest.split_at_mut(limit * words);
    let (edges, rest) = rest.split_at_mut(limit * (2 * threads));
    let n = explore(p, limit, queue, rest, edges, key).ok_or(Refusal::Crowded)?;
    Ok(Found {
        n,
        queue,
        edges,
        rest,
    })
}
