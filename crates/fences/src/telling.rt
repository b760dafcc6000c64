// The moves of a run, and spots for fences, as words.
ghost use Rattle.std.specs.Prelude.{◌≡◌, ℕ, ◌+◌, ◌-◌, ◌*◌, ◌<◌, ◌≤◌, [], ◌∷◌, ◌++◌, map, length, take, drop, slice_index};
ghost use Rattle.explore.specs.Found.{move_of};
ghost use Rattle.hitting.specs.Masks.{bit};
ghost use Rattle.hitting.specs.Spots.{with_spot};
ghost use Rattle.spots.specs.Masks.{spot_of, spots};
ghost use Rattle.fences.specs.Rows.{Wrote};
ghost use Rattle.fences.specs.Told.{text_ms, text_ss};

// The word of a move: the thread whose instruction is next, or 4 more than the thread whose store goes to memory.
fn move_word(threads: usize, m: u32) -> u32
    requires few { threads ≤ 4 }
    requires below { m < 2 * threads }
    ensures { text_ms (move_of threads m ∷ []) ≡ result ∷ [] }
{
    if (m as usize) < threads {
        return m;
    }
    4 + (m - threads as u32)
}

// Writes a word for each move of the path.
pub fn write_moves(threads: usize, path: &[u32], out: &mut [u32])
    requires few { threads ≤ 4 }
    requires below { (k : ℕ) → k < length path.now → slice_index path.now k < 2 * threads }
    requires room { length path.now ≤ length out.old }
    ensures written { take (length path.now) out.new ≡ text_ms (map (move_of threads) path.now) }
    ensures behind { drop (length path.now) out.new ≡ drop (length path.now) out.old }
{
    for k in 0..path.len() {
        out[k] = move_word(threads, path[k]);
    }
}

// Writes the spot at position `s`, if the mask has it, from `at` on, and says where it ends.
fn write_spot(fences: u32, s: u32, out: &mut [u32], at: usize) -> usize
    requires below { s < 32 }
    requires room { at + 2 ≤ length out.old }
    ensures { Wrote (text_ss (map spot_of (with_spot (bit fences (31 - s)) s []))) out.old out.new at result }
{
    if (fences >> (31 - s)) % 2 == 0 {
        return at;
    }
    out[at] = s / 8;
    out[at + 1] = s % 8;
    at + 2
}

// Writes the thread and the instruction of each spot of the mask, in order, from `at` on, and says how many spots.
pub fn write_fences(fences: u32, out: &mut [u32], at: usize) -> usize
    requires { at + 64 ≤ length out.old }
    ensures count { result ≡ length (spots fences) }
    ensures few { result ≤ 32 }
    ensures written { take (at + 2 * result) out.new ≡ take at out.old ++ text_ss (spots fences) }
    ensures behind { drop (at + 2 * result) out.new ≡ drop (at + 2 * result) out.old }
{
    let mut end = at;
    for s in 0..32 {
        end = write_spot(fences, s, out, end);
    }
    (end - at) / 2
}
