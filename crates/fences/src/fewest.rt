// The fewest fences. Lists of fences are bits of a u32, gone through by their length, within a length from the first list
// on. A list that misses a clause is skipped: a clause is what a bad run passes while something waits, so a list without
// any of it leaves that run. What meets all clauses is looked at; a failed look gives one clause more.
ghost use Rattle.std.specs.Prelude.{◌≡◌, ℕ, ◌+◌, ◌-◌, ◌*◌, ◌^◌, ◌<◌, ◌≤◌, List, length, take};
ghost use Rattle.hitting.specs.Post.{NextOrNone};
ghost use Rattle.model.specs.Fences.{Fewest as FewestFences};
ghost use Rattle.program.specs.Meaning.{program};
ghost use Rattle.spots.specs.Masks.{every_spot, spots};
ghost use Rattle.fences.specs.Searching.{LearntMasks, EarlierFail};
ghost use Rattle.fences.specs.Fewest.{Ground, Tried, KeptOrNot, GoneThrough};

use crate::looks::Base;
use hitting::candidates::next_candidate;
use spots::every_spot;

// The next list of so many fences that meets the first `len` clauses.
fn candidate(clauses: &[u32], len: usize, among: u32, bits: u32, upto: u32) -> Option<u32>
    requires { len ≤ length clauses.now }
    ensures { NextOrNone (take len clauses.now) among bits upto result }
{
    next_candidate(&clauses[0..len], among, bits, upto)
}

// Keeps a clause behind the others. Where there is no room it is left out: it would only have saved looks.
fn keep(clauses: &mut [u32], len: usize, clause: u32) -> usize
    requires { len ≤ length clauses.old }
    ensures { KeptOrNot clauses.old len clause clauses.new result }
{
    if len >= clauses.len() {
        return len;
    }
    clauses[len] = clause;
    len + 1
}

impl Base<'_> {
    // Looks at the list `x`: none where it works, else what a bad run passes.
    fn try_list(&self, x: u32, cost: &mut [u32], from: &mut [u32], path: &mut [u32]) -> Option<u32>
        requires ground { Ground (program self.now.p.now) self.now.queue.now self.now.edges.now self.now.once.now self.now.n }
        requires in_cost { self.now.n ≤ length cost.old }
        requires in_from { self.now.n ≤ length from.old }
        requires room { length path.old ≡ 64 }
        ensures { Tried (program self.now.p.now) x result }
    {
        let bad = self.look_at(x, cost, from)?;
        let (_len, clause) = self.learn(x, from, bad, path);
        Some(clause)
    }

    // Goes through the lists of so many fences, with `len` clauses kept: the first that works, and how many clauses are
    // kept then.
    fn lists_of(
        &self,
        among: u32,
        bits: u32,
        cost: &mut [u32],
        from: &mut [u32],
        path: &mut [u32],
        clauses: &mut [u32],
        len: usize,
    ) -> (Option<u32>, usize)
        requires ground { Ground (program self.now.p.now) self.now.queue.now self.now.edges.now self.now.once.now self.now.n }
        requires in_cost { self.now.n ≤ length cost.old }
        requires in_from { self.now.n ≤ length from.old }
        requires room { length path.old ≡ 64 }
        requires among { among ≡ every_spot (program self.now.p.now) }
        requires few { len ≤ length clauses.old }
        requires learnt { LearntMasks (program self.now.p.now) clauses.old len }
        requires earlier { EarlierFail (program self.now.p.now) bits (2 ^ 32 - 1) }
        ensures { GoneThrough (program self.now.p.now) bits clauses.new result.0 result.1 }
    {
        let mut known = len;
        let mut upto = 0xffff_ffff;
        'lists: loop {
            let Some(x) = candidate(clauses, known, among, bits, upto) else {
                return (None, known);
            };
            let Some(clause) = self.try_list(x, cost, from, path) else {
                return (Some(x), known);
            };
            known = keep(clauses, known, clause);
            if x == 0 {
                return (None, known);
            }
            upto = x - 1;
        }
    }

    // The list of the fewest fences with which the program is plain, and of those as short the first.
    pub fn fewest(
        &self,
        cost: &mut [u32],
        from: &mut [u32],
        path: &mut [u32],
        clauses: &mut [u32],
    ) -> u32
        requires ground { Ground (program self.now.p.now) self.now.queue.now self.now.edges.now self.now.once.now self.now.n }
        requires in_cost { self.now.n ≤ length cost.old }
        requires in_from { self.now.n ≤ length from.old }
        requires room { length path.old ≡ 64 }
        ensures { FewestFences (program self.now.p.now) (spots result) }
    {
        let among = every_spot(self.p);
        let mut known = 0;
        'lengths: for bits in 0..33 {
            let (found, more) = self.lists_of(among, bits, cost, from, path, clauses, known);
            if let Some(x) = found {
                return x;
            }
            known = more;
        }
        unreachable()
    }
}
