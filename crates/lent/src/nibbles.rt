// 4-bit fields of a u32, the lowest first.
ghost use Rattle.std.specs.Prelude.{◌≡◌, ℕ, ◌^◌, ◌<◌, slice_index, slice_set};
ghost use Rattle.lent.specs.Nibbles.{nibbles};

// The field `at` of `n`.
pub fn nibble(n: u32, at: u32) -> u32
    requires { at < 8 }
    ensures value { (k : ℕ) → at < k → result ≡ slice_index (nibbles k n) at }
    ensures small { result < 16 }
{
    (n >> (4 * at)) & 15
}

// `n` with `v` as its field `at`.
pub fn with_nibble(n: u32, at: u32, v: u32) -> u32
    requires place { at < 8 }
    requires value { v < 16 }
    ensures after { (k : ℕ) → at < k → nibbles k result ≡ slice_set (nibbles k n) at v }
    ensures below { (k : ℕ) → at < k → n < 16 ^ k → result < 16 ^ k }
{
    let shift = 4 * at;
    let low = n & ((1 << shift) - 1);
    let high = (n >> shift) >> 4;
    (((high << 4) | v) << shift) | low
}
