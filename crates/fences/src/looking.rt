// The call: is a program plain; if not, a run that shows it, and the fewest fences.
ghost use Rattle.std.specs.Prelude.{length};
ghost use Rattle.program.specs.Meaning.{program};
ghost use Rattle.fences.specs.Finding.{IsFound};
ghost use Rattle.fences.specs.Answers.{LookedFound, LookedPost};

use crate::finding::{Found, admitted, find_states};
use crate::looks::Base;
use crate::refusals::Refusal;
use crate::telling::{write_fences, write_moves};
use once::marks::mark_at_once;
use program::threads::Program;

// Nothing new comes out; or a run that shows what does, of so many moves, and so many fences, the fewest.
#[derive(Clone, Copy, PartialEq, Eq, Debug)]
pub enum Verdict {
    Plain,
    Fences(usize, usize),
}

pub type Looked = Result<Verdict, Refusal>;

// The verdict on a program whose states are found. The words that are left serve for the marks, the searches and the
// clauses.
fn look_found(p: &Program, found: Found<'_>, out: &mut [u32]) -> Looked
    requires { IsFound (program p.now) found }
    ensures { LookedFound (program p.now) out.old out.new result }
{
    let Found {
        n,
        queue,
        edges,
        rest,
    } = found;
    let (once, rest) = rest.split_at_mut(n);
    let (cost, rest) = rest.split_at_mut(n);
    let (from, clauses) = rest.split_at_mut(n);
    mark_at_once(p, edges, n, once, from);
    let base = Base {
        p,
        n,
        queue,
        edges,
        once,
    };
    let Some(bad) = base.look_at(0, cost, from) else {
        return Ok(Verdict::Plain);
    };
    let mut told = [0u32; 64];
    let (moves, _passed) = base.learn(0, from, bad, &mut told);
    if out.len() < 256 {
        return Err(Refusal::OutFull);
    }
    let mut path = [0u32; 64];
    let fences = base.fewest(cost, from, &mut path, clauses);
    write_moves(p.count(), &told[0..moves], out);
    let count = write_fences(fences, out, moves);
    Ok(Verdict::Fences(moves, count))
}

// Is the program that the words are plain, in at most `most` states? If not, `out` has the moves of a run whose outcome
// can't come out at once, a thread's number for its next instruction and 4 more for its oldest store going to memory; then
// thread and instruction for each of the fewest fences with which it is plain.
pub fn look(words: &[u32], most: u32, out: &mut [u32], work: &mut [u32]) -> Looked
    ensures { LookedPost words.now most (length work.old) out.old out.new result }
{
    let p = admitted(words, most, work.len())?;
    let found = find_states(&p, work)?;
    look_found(&p, found, out)
}
