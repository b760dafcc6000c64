// The hash of a key. Every bit of the key counts, also where keys differ in few bits, and the highest bits of the hash are
// the best mixed. It is quick: a step takes two words and waits for one product only.
ghost use Rattle.std.specs.Prelude.{◌≡◌};
ghost use Rattle.lent.specs.Hash.{stir, spread, hash_of};

// Takes two words of a key into the hash so far.
fn stirred(h: u64, a: u32, b: u32) -> u64
    ensures { result ≡ stir h a b }
{
    h.wrapping_mul(0x9e37_79b9_7f4a_7c15)
        .wrapping_add(a as u64 * 0xd6e8_feb9 + b as u64)
}

// Folds the high half onto the low one, and lets every bit reach the highest.
fn spread_out(h: u64) -> u64
    ensures { result ≡ spread h }
{
    (h ^ (h >> 32)).wrapping_mul(0xbf58_476d_1ce4_e5b9)
}

pub fn hash(key: &[u32]) -> u64
    ensures { result ≡ hash_of key.now }
{
    let mut h = 0;
    let mut rest = key;
    while let [a, b, more @ ..] = rest {
        h = stirred(h, *a, *b);
        rest = more;
    }
    match rest {
        [last] => spread_out(stirred(h, *last, 0)),
        _ => spread_out(h),
    }
}
