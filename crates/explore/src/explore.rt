// Exploration: every state's moves in turn, from the first state on, until all states found have had their turn.
ghost use Rattle.std.specs.Prelude.{◌≡◌, ◌+◌, ◌*◌, ◌^◌, ◌<◌, ◌≤◌, length, take, replicate};
ghost use Rattle.program.specs.Meaning.{program};
ghost use Rattle.lent.specs.Table.{homes};
ghost use Rattle.explore.specs.Found.{width, moves_of};
ghost use Rattle.explore.specs.Post.{Between, Started, AllExplored};

use crate::expand::expand;
use crate::grow::with_room;
use lent::shape::Shape;
use lent::table::Records;
use program::threads::Program;

// The first state, where all is 0, and a small table for it.
fn start<'q, 't>(
    p: &Program,
    limit: usize,
    queue: &'q mut [u32],
    table: &'t mut [u32],
) -> Records<'q, 't>
    requires some { 0 < limit }
    requires told { limit < 2 ^ 32 }
    requires room { width (length (program p.now)) ≤ length queue.old }
    requires small { 1536 ≤ length table.old }
    requires fits { 1024 + (limit + 9) ≤ length table.old }
    ensures started { Started (program p.now) limit result.queue.now result.table.now result.shape }
    ensures one { result.n ≡ 1 }
    ensures words { length result.queue.now ≡ length queue.old }
    ensures queue { result.queue.ghost_name ≡ queue.entry.ghost_name }
    ensures table { result.table.ghost_name ≡ table.entry.ghost_name }
{
    let width = 1 + 3 * p.count();
    queue[..width].fill(0);
    let shape = Shape {
        width,
        bits: 10,
        room: 512,
    };
    Records::new(shape, 1, queue, table)
}

// All states that runs come to, at most `limit`, with all their edges; none where there are more. `key` is for one
// state's words.
pub fn explore(
    p: &Program,
    limit: usize,
    queue: &mut [u32],
    table: &mut [u32],
    edges: &mut [u32],
    key: &mut [u32],
) -> Option<usize>
    requires some { 0 < limit }
    requires told { limit < 2 ^ 32 }
    requires key { length key.old ≡ width (length (program p.now)) }
    requires ends { limit * width (length (program p.now)) ≤ length queue.old }
    requires edges_end { limit * moves_of (length (program p.now)) ≤ length edges.old }
    requires small { 1536 ≤ length table.old }
    requires fits { 1024 + (limit + 9) ≤ length table.old }
    ensures { AllExplored (program p.now) limit queue.new edges.new result }
{
    let mut records = start(p, limit, queue, table);
    let mut i = 0;
    // not a range: its end would be fixed, and states come while the loop runs
    'states: while i < records.n {
        records = with_room(records, limit);
        expand(p, &mut records, limit, i, edges, key)?;
        i += 1;
    }
    Some(records.n)
}
