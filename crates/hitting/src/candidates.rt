// Candidates: the sets within `among` with just so many bits that meet every clause. They are gone through from the
// numerically greatest down, by jumps over what can be none.
ghost use Rattle.std.specs.Prelude.{◌≡◌, ◌<◌, ◌≤◌, bit_and, count_ones};
ghost use Rattle.hitting.specs.Masks.{Within};
ghost use Rattle.hitting.specs.Post.{Greatest, Lowered, PassedOrNone, UnmetOrCandidate, NextOrNone};

use crate::clauses::first_missed;

// The greatest set within `among` up to `from`: below the highest bit of `from` that lies outside, all of `among`.
fn greatest_within(among: u32, from: u32) -> u32
    ensures { Greatest among from result }
{
    let inside = from & among;
    if inside == from {
        return from;
    }
    let highest = 31 - (from - inside).leading_zeros();
    (from | ((1 << highest) - 1)) & among
}

// `x` without its lowest bit: the next set below `x` with fewer bits.
fn without_lowest(x: u32) -> u32
    requires { 0 < x }
    ensures { Lowered x result }
{
    x & (x - 1)
}

// The next set within `among` below `x` that does not agree with `x` from the lowest bit of `mark` up. What agrees
// there misses `mark` as `x` does.
fn next_without(among: u32, mark: u32, x: u32) -> Option<u32>
    requires within { Within x among }
    requires missed { bit_and x mark ≡ 0 }
    ensures { PassedOrNone among mark x result }
{
    if mark == 0 {
        return None;
    }
    let low = mark.trailing_zeros();
    let kept = (x >> low) << low;
    if kept == 0 {
        return None;
    }
    Some((kept - 1) & among)
}

// A set of bits that `x` misses and every candidate meets; none if `x` is a candidate itself. Where `x` has too few
// bits it is the rest of `among`: what misses that lies within `x`, and has too few bits as well.
fn unmet(clauses: &[u32], among: u32, bits: u32, x: u32) -> Option<u32>
    requires within { Within x among }
    requires few { count_ones x ≤ bits }
    ensures { UnmetOrCandidate clauses.now among bits x result }
{
    if x.count_ones() < bits {
        Some(among - x)
    } else {
        first_missed(clauses, x).map(|k| clauses[k])
    }
}

// The greatest candidate up to `from`. Each turn leaves out at once all sets that fail for the same reason as `x`.
pub fn next_candidate(clauses: &[u32], among: u32, bits: u32, from: u32) -> Option<u32>
    ensures { NextOrNone clauses.now among bits from result }
{
    let mut x = greatest_within(among, from);
    'down: loop {
        if x.count_ones() > bits {
            x = without_lowest(x);
            continue 'down;
        }
        let Some(mark) = unmet(clauses, among, bits, x) else {
            return Some(x);
        };
        x = next_without(among, mark, x)?;
    }
}

#[cfg(test)]
mod tests {
    use super::*;
    use crate::clauses::union;

    // The greatest candidate below `end`, by looking at one set after another.
    fn slowly(clauses: &[u32], among: u32, bits: u32, end: u32) -> Option<u32> {
        (0..end).rev().find(|x| {
            x & among == *x && x.count_ones() == bits && first_missed(clauses, *x).is_none()
        })
    }

    #[test]
    fn jumps_find_what_all_sets_give(rt: HostRuntime) {
        let table: [&[u32]; 5] = [
            &[],
            &[0b000011, 0b001100],
            &[0b100010, 0b010010, 0b000110],
            &[0b111000, 0],
            &[0b100001, 0b010101, 0b001011, 64],
        ];
        for clauses in table {
            for among in [0b111111, 0b101101, union(clauses)] {
                for bits in 0..8 {
                    for end in 1..70 {
                        assert_eq!(rt;
                            next_candidate(clauses, among, bits, end - 1),
                            slowly(clauses, among, bits, end)
                        );
                    }
                }
            }
        }
    }
}
