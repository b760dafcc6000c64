// The calls that a program asks, `look` and `outcomes`, with the memory that is lent to them.
ghost use Rattle.std.specs.Prelude.{◌≡◌, ◌+◌, ◌*◌, take, drop, IfOk, vec_len};
ghost use Rattle.fences.specs.Answers.{LookedPost};
ghost use Rattle.fences.specs.Says.{ListedPost};

use fences::listing::{Listed, outcomes};
use fences::looking::{Looked, look};
use std::alloc::{AllocError, Global};

#[derive(Drop)]
pub struct Lent {
    // so many states are allowed at the least
    states: u32,
    work: Vec<u32>,
    // what the last call told
    pub out: Vec<u32>,
}

// How many words the calls ask for, for so many states that are allowed at the least.
pub fn work_for(states: u32) -> usize
    ensures { result ≡ 65536 + 128 * (states + 1) }
{
    65_536 + 128 * (states as usize + 1)
}

impl Lent {
    pub fn new(heap: Global, states: u32, work: usize, out: usize) -> Result<Lent, AllocError>
        ensures states { IfOk result (λ l. l.states ≡ states) }
        ensures work { IfOk result (λ l. vec_len l.work ≡ work) }
        ensures out { IfOk result (λ l. vec_len l.out ≡ out) }
    {
        let work = vec![in heap; 0u32; work]?;
        let out = vec![in heap; 0u32; out]?;
        Ok(Lent { states, work, out })
    }

    // Looks at the program that the words are, and leaves a run and fences in `out` where it is not plain.
    pub fn look(&mut self, words: &[u32]) -> Looked
        ensures answer { LookedPost words.now self.old.states (vec_len self.old.work) self.old.out.items self.new.out.items result }
        ensures states { self.new.states ≡ self.old.states }
        ensures work { vec_len self.new.work ≡ vec_len self.old.work }
    {
        look(
            words,
            self.states,
            self.out.as_mut_slice(),
            self.work.as_mut_slice(),
        )
    }

    // Finds all outcomes of the program that the words are, and leaves them in `out`.
    pub fn outcomes(&mut self, words: &[u32]) -> Listed
        ensures answer { ListedPost words.now self.old.states (vec_len self.old.work) self.old.out.items self.new.out.items result }
        ensures states { self.new.states ≡ self.old.states }
        ensures work { vec_len self.new.work ≡ vec_len self.old.work }
    {
        outcomes(
            words,
            self.states,
            self.out.as_mut_slice(),
            self.work.as_mut_slice(),
        )
    }

    // At most `count` of the words that were told, from the one at `at` on.
    pub fn told(&self, at: usize, count: usize) -> &[u32]
        ensures { result.now ≡ take count (drop at self.now.out.items) }
    {
        let (_, rest) = self.out.as_slice().split_at(at.min(self.out.len()));
        let (told, _) = rest.split_at(count.min(rest.len()));
        told
    }
}
