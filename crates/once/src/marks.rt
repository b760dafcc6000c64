// States that are come to at once, as marks over the kept edges. Where nothing waits, a step at once is a thread's next
// instruction and, if something of the thread waits then, its going out: two kept edges joined into one.
ghost use Rattle.std.specs.Prelude.{◌≡◌, ℕ, ◌*◌, ◌≤◌, List, length, drop};
ghost use Rattle.program.specs.Meaning.{program};
ghost use Rattle.explore.specs.Found.{moves_of, Explored};
ghost use Rattle.once.specs.Once.{MarksOnce};

use graph::rules::{Joined, Kept};
use graph::search::search;
use program::threads::Program;

// Marks in `cost`, for the n explored states, those that are come to at once; in `from`, from which state each was.
pub fn mark_at_once(p: &Program, edges: &[u32], n: usize, cost: &mut [u32], from: &mut [u32])
    requires explored { (q : List ℕ) × Explored (program p.now) q edges.now n }
    requires held { n * moves_of (length (program p.now)) ≤ length edges.now }
    requires in_cost { n ≤ length cost.old }
    requires in_from { n ≤ length from.old }
    ensures marks { (q : List ℕ) → Explored (program p.now) q edges.now n → MarksOnce (program p.now) q n cost.new }
    ensures cost_behind { drop n cost.new ≡ drop n cost.old }
    ensures from_behind { drop n from.new ≡ drop n from.old }
{
    let threads = p.count();
    let rule = Joined {
        rule: Kept {
            edges,
            width: 2 * threads,
        },
        shift: threads,
    };
    search(&rule, n, threads, cost, from);
}
