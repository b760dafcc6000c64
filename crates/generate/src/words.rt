// Words that are mostly no program: those of a program with one word changed, dropped or added.
ghost use Rattle.std.specs.Prelude.{◌+◌, ◌≤◌, length, IfOk, vec_len};

use crate::random::Random;
use std::alloc::{AllocError, Global};

// Mostly a small word.
fn some_word(random: &mut Random) -> u32 {
    if random.one_in(4) {
        return (random.draw() >> 32) as u32;
    }
    random.below(20)
}

// The words with one changed or dropped, or with one more.
pub fn damaged(heap: Global, random: &mut Random, words: &[u32]) -> Result<Vec<u32>, AllocError>
    ensures { IfOk result (λ v. (vec_len v ≤ length words.now + 1) × (length words.now ≤ vec_len v + 1)) }
{
    let word = some_word(random);
    let mut damaged = Vec::from_slice(heap, words)?;
    if words.is_empty() {
        damaged.push(word)?;
        return Ok(damaged);
    }
    let at = random.draw() as usize % words.len();
    match random.below(4) {
        0 => damaged[at] = word,
        1 => {
            damaged.remove(at);
        }
        2 => damaged.insert(at, word)?,
        _ => damaged.push(word)?,
    }
    Ok(damaged)
}
