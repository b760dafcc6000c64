// Looking at a set of guards over the states found: is a bad state come to, which is finished and can't be come to at once;
// and what is learned from a run to it.
ghost use Rattle.std.specs.Prelude.{◌≡◌, ℕ, ◌+◌, ◌*◌, ◌<◌, ◌≤◌, true, List, length, Some};
ghost use Rattle.program.specs.Meaning.{program};
ghost use Rattle.explore.specs.Found.{width, moves_of, Explored};
ghost use Rattle.fences.specs.Fewest.{Ground};
ghost use Rattle.fences.specs.Looks.{Chosen, Bad, Looked, Learned};

use crate::listing::record;
use graph::search::search;
use graph::walks::walk_back;
use guard::hits::States;
use guard::rule::Guarded;
use once::finished::finished;
use program::threads::Program;

// What every look stands on: the states of a program, all of them, with their edges, and which are come to at once.
#[derive(Clone, Copy)]
pub struct Base<'a> {
    pub p: &'a Program,
    pub n: usize,
    pub queue: &'a [u32],
    pub edges: &'a [u32],
    pub once: &'a [u32],
}

// Whether the best so far costs no more than state `i`.
fn as_good(cost: &[u32], best: Option<usize>, i: usize) -> bool
    requires below { i < length cost.now }
    requires held { (j : ℕ) → best ≡ Some j → j < length cost.now }
    ensures { result ≡ true → (j : ℕ) × (best ≡ Some j) }
{
    match best {
        None => false,
        Some(j) => cost[j] <= cost[i],
    }
}

impl Base<'_> {
    // The better of the best so far and state `i`, if that is a bad one. The dear test comes last.
    fn choose(&self, cost: &[u32], i: usize, best: Option<usize>) -> Option<usize>
        requires explored { (g : List ℕ) × Explored (program self.now.p.now) self.now.queue.now g self.now.n }
        requires held { self.now.n * width (length (program self.now.p.now)) ≤ length self.now.queue.now }
        requires in_once { self.now.n ≤ length self.now.once.now }
        requires in_cost { self.now.n ≤ length cost.now }
        requires below { i < self.now.n }
        requires best { Chosen (program self.now.p.now) self.now.queue.now self.now.once.now cost.now i best }
        ensures { Chosen (program self.now.p.now) self.now.queue.now self.now.once.now cost.now (i + 1) result }
    {
        if cost[i] == 0 {
            return best;
        }
        if self.once[i] != 0 {
            return best;
        }
        if as_good(cost, best, i) {
            return best;
        }
        if !finished(self.p, record(self.queue, 1 + 3 * self.p.count(), i)) {
            return best;
        }
        Some(i)
    }

    // Of the states that are finished, marked in `cost` and not come to at once, one of least cost.
    pub fn find_bad(&self, cost: &[u32]) -> Option<usize>
        requires explored { (g : List ℕ) × Explored (program self.now.p.now) self.now.queue.now g self.now.n }
        requires held { self.now.n * width (length (program self.now.p.now)) ≤ length self.now.queue.now }
        requires in_once { self.now.n ≤ length self.now.once.now }
        requires in_cost { self.now.n ≤ length cost.now }
        ensures { Chosen (program self.now.p.now) self.now.queue.now self.now.once.now cost.now self.now.n result }
    {
        let mut best = None;
        for i in 0..self.n {
            best = self.choose(cost, i, best);
        }
        best
    }

    // Searches under the guards: a bad state that is come to, or none.
    pub fn look_at(&self, guards: u32, cost: &mut [u32], from: &mut [u32]) -> Option<usize>
        requires ground { Ground (program self.now.p.now) self.now.queue.now self.now.edges.now self.now.once.now self.now.n }
        requires in_cost { self.now.n ≤ length cost.old }
        requires in_from { self.now.n ≤ length from.old }
        ensures { Looked (program self.now.p.now) self.now.queue.now self.now.edges.now guards self.now.n cost.new from.new result }
    {
        let threads = self.p.count();
        let states = States {
            threads,
            queue: self.queue,
            edges: self.edges,
        };
        let rule = Guarded { states, guards };
        search(&rule, self.n, 2 * threads, cost, from);
        self.find_bad(cost)
    }

    // Reads the run to a bad state back into `path`: how many moves it has, and what it passes.
    pub fn learn(&self, guards: u32, from: &[u32], bad: usize, path: &mut [u32]) -> (usize, u32)
        requires explored { Explored (program self.now.p.now) self.now.queue.now self.now.edges.now self.now.n }
        requires kept { self.now.n * moves_of (length (program self.now.p.now)) ≤ length self.now.edges.now }
        requires in_from { self.now.n ≤ length from.now }
        requires bad { (cost : List ℕ) × Bad (program self.now.p.now) self.now.queue.now self.now.edges.now guards self.now.n cost from.now bad }
        requires room { length path.old ≡ 64 }
        ensures { Learned (program self.now.p.now) self.now.queue.now guards bad path.new result.0 result.1 }
    {
        let threads = self.p.count();
        let states = States {
            threads,
            queue: self.queue,
            edges: self.edges,
        };
        let rule = Guarded { states, guards };
        let Some(len) = walk_back(&rule, 2 * threads, from, bad, path) else {
            return (0, 0);
        };
        (len, states.run_hits(&path[0..len]))
    }
}
