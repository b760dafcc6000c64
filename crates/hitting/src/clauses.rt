// Clauses: sets of bits of which a candidate must have one each.
ghost use Rattle.hitting.specs.Post.{MissedOrMet, Union};

// The first clause that `x` misses, if it misses one.
pub fn first_missed(clauses: &[u32], x: u32) -> Option<usize>
    ensures { MissedOrMet clauses.now x result }
{
    clauses.iter().position(|clause| x & *clause == 0)
}

// All bits of all clauses.
pub fn union(clauses: &[u32]) -> u32
    ensures { Union clauses.now result }
{
    clauses.iter().fold(0, |all, clause| all | *clause)
}
