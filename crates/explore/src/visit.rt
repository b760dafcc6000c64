// One edge of the graph of states: the move made, the state found again or written behind the others, and the edge's
// word written.
ghost use Rattle.std.specs.Prelude.{◌≡◌, ◌+◌, ◌*◌, ◌^◌, ◌<◌, ◌≤◌, length};
ghost use Rattle.program.specs.Meaning.{program};
ghost use Rattle.explore.specs.Found.{width, moves_of};
ghost use Rattle.explore.specs.Post.{Going, Visited};

use crate::enter::enter;
use lent::table::Records;
use machine::moves::Move;
use machine::states::State;
use program::threads::Program;

// Move `m` of state `i`; none where there is one state more than may be.
pub fn visit(
    p: &Program,
    records: &mut Records<'_, '_>,
    limit: usize,
    i: usize,
    m: usize,
    edges: &mut [u32],
    key: &mut [u32],
) -> Option<()>
    requires going { Going (program p.now) records.old.shape limit records.old.queue.now records.old.table.now edges.old records.old.n i m }
    requires key { length key.old ≡ width (length (program p.now)) }
    requires room { records.old.n < records.old.shape.room }
    requires told { limit < 2 ^ 32 }
    requires word { i * moves_of (length (program p.now)) + m < length edges.old }
    requires ends { limit * records.old.shape.width ≤ length records.old.queue.now }
    requires below { m < moves_of (length (program p.now)) }
    ensures visited { Visited (program p.now) records.old.shape limit records.old.n i m records.new.queue.now records.new.table.now edges.new records.new.n result }
    ensures shape { records.new.shape ≡ records.old.shape }
    ensures words { length records.new.queue.now ≡ length records.old.queue.now }
    ensures places { length records.new.table.now ≡ length records.old.table.now }
    ensures queue { records.new.queue.ghost_name ≡ records.old.queue.ghost_name }
    ensures table { records.new.table.ghost_name ≡ records.old.table.ghost_name }
{
    let threads = p.count();
    let at = i * (2 * threads) + m;
    let state = State {
        p,
        words: records.record(i),
    };
    if !state.make(Move::numbered(threads, m as u32), key) {
        edges[at] = 0;
        return Some(());
    }
    let j = enter(records, limit, key)?;
    edges[at] = (j + 1) as u32;
    Some(())
}
