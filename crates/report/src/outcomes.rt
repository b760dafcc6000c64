// An outcome as words: whether runs at once come to it, each thread's four registers, then the eight places.
ghost use Rattle.std.specs.Prelude.{◌≡◌, ◌+◌, ◌*◌, ◌≤◌, ◌∷◌, ◌++◌, length, take, drop};
ghost use Rattle.lent.specs.Nibbles.{nibbles};
ghost use Rattle.model.specs.Machine.{St, outcome};
ghost use Rattle.machine.specs.Packed.{Packs};

use lent::nibbles::nibble;

// Writes the lowest fields of `word`, one into each place of `out`.
fn write_fields(word: u32, out: &mut [u32])
    requires { length out.old ≤ 8 }
    ensures { out.new ≡ nibbles (length out.old) word }
{
    for (f, place) in out.iter_mut().enumerate() {
        *place = nibble(word, f as u32);
    }
}

// Writes `once` and what came out of `state`, from `at` on.
pub fn write_outcome(threads: usize, once: u32, state: &[u32], out: &mut [u32], at: usize)
    requires words { length state.now ≡ 1 + 3 * threads }
    requires room { at + (9 + 4 * threads) ≤ length out.old }
    ensures written { (s : St) → Packs state.now s → take (at + (9 + 4 * threads)) out.new ≡ take at out.old ++ (once ∷ outcome s) }
    ensures behind { drop (at + (9 + 4 * threads)) out.new ≡ drop (at + (9 + 4 * threads)) out.old }
{
    let row = &mut out[at..at + (9 + 4 * threads)];
    row[0] = once;
    // by the thread's number: in step are four places here and three words there, of which only the first is read
    for n in 0..threads {
        write_fields(state[1 + 3 * n], &mut row[1 + 4 * n..5 + 4 * n]);
    }
    write_fields(state[0], &mut row[1 + 4 * threads..]);
}
