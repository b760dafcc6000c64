// All outcomes of a program, with and without waiting stores: the finished states among those found.
ghost use Rattle.std.specs.Prelude.{◌≡◌, ℕ, ◌+◌, ◌*◌, ◌<◌, ◌≤◌, List, length};
ghost use Rattle.lent.specs.Records.{rec};
ghost use Rattle.program.specs.Meaning.{program};
ghost use Rattle.explore.specs.Found.{width, Explored};
ghost use Rattle.fences.specs.Listing.{text};
ghost use Rattle.fences.specs.Rows.{one_row, rows_from, Wrote};
ghost use Rattle.fences.specs.Finding.{IsFound};
ghost use Rattle.fences.specs.Says.{ListedFound, ListedPost};

use crate::finding::{Found, admitted, find_states};
use crate::refusals::Refusal;
use once::finished::finished;
use once::marks::mark_at_once;
use program::threads::Program;
use report::outcomes::write_outcome;

// So many outcomes, of so many states.
#[derive(Clone, Copy, PartialEq, Eq, Debug)]
pub struct Listing {
    pub outcomes: usize,
    pub states: usize,
}

pub type Listed = Result<Listing, Refusal>;

// The words of state `i`.
pub fn record(queue: &[u32], words: usize, i: usize) -> &[u32]
    requires { i * words + words ≤ length queue.now }
    ensures { result.now ≡ rec queue.now words i }
{
    let start = i * words;
    &queue[start..start + words]
}

// How many of the n states are finished.
fn count_finished(p: &Program, queue: &[u32], n: usize) -> usize
    requires explored { (g : List ℕ) × Explored (program p.now) queue.now g n }
    requires held { n * width (length (program p.now)) ≤ length queue.now }
    ensures few { result ≤ n }
    ensures count { (cost : List ℕ) → result ≡ length (rows_from (program p.now) queue.now cost 0 n) }
{
    let words = 1 + 3 * p.count();
    let mut count = 0;
    for i in 0..n {
        if finished(p, record(queue, words, i)) {
            count += 1;
        }
    }
    count
}

// Writes the row of state `i`, if it is finished, from `at` on, and says where it ends.
fn write_row(
    p: &Program,
    queue: &[u32],
    cost: &[u32],
    n: usize,
    i: usize,
    out: &mut [u32],
    at: usize,
) -> usize
    requires explored { (g : List ℕ) × Explored (program p.now) queue.now g n }
    requires held { n * width (length (program p.now)) ≤ length queue.now }
    requires below { i < n }
    requires marked { n ≤ length cost.now }
    requires room { at + length (text (one_row (program p.now) queue.now cost.now i)) ≤ length out.old }
    ensures { Wrote (text (one_row (program p.now) queue.now cost.now i)) out.old out.new at result }
{
    let threads = p.count();
    let state = record(queue, 1 + 3 * threads, i);
    if !finished(p, state) {
        return at;
    }
    let once = if cost[i] > 0 { 1 } else { 0 };
    write_outcome(threads, once, state, out, at);
    at + (9 + 4 * threads)
}

// Writes the rows of all finished states, one after the other.
fn write_rows(p: &Program, queue: &[u32], cost: &[u32], n: usize, out: &mut [u32])
    requires explored { (g : List ℕ) × Explored (program p.now) queue.now g n }
    requires held { n * width (length (program p.now)) ≤ length queue.now }
    requires marked { n ≤ length cost.now }
    requires room { length (text (rows_from (program p.now) queue.now cost.now 0 n)) ≤ length out.old }
    ensures { Wrote (text (rows_from (program p.now) queue.now cost.now 0 n)) out.old out.new 0 (length (text (rows_from (program p.now) queue.now cost.now 0 n))) }
{
    let mut at = 0;
    for i in 0..n {
        at = write_row(p, queue, cost, n, i, out, at);
    }
}

// The outcomes of a program whose states are found. The words that are left serve for the marks.
fn list_found(p: &Program, found: Found<'_>, out: &mut [u32]) -> Listed
    requires { IsFound (program p.now) found }
    ensures { ListedFound (program p.now) out.old out.new result }
{
    let Found {
        n,
        queue,
        edges,
        rest,
    } = found;
    let (cost, from) = rest.split_at_mut(n);
    mark_at_once(p, edges, n, cost, from);
    let count = count_finished(p, queue, n);
    if count > out.len() / (9 + 4 * p.count()) {
        return Err(Refusal::OutFull);
    }
    write_rows(p, queue, cost, n, out);
    Ok(Listing {
        outcomes: count,
        states: n,
    })
}

// All outcomes of the program that the words are, in at most `most` states: into `out` a row for each, 1 if it also
// comes out at once, else 0, then all registers, thread by thread, and memory.
pub fn outcomes(words: &[u32], most: u32, out: &mut [u32], work: &mut [u32]) -> Listed
    ensures { ListedPost words.now most (length work.old) out.old out.new result }
{
    let p = admitted(words, most, work.len())?;
    let found = find_states(&p, work)?;
    list_found(&p, found, out)
}
