// All moves of one state.
ghost use Rattle.std.specs.Prelude.{◌≡◌, ◌+◌, ◌*◌, ◌^◌, ◌<◌, ◌≤◌, length};
ghost use Rattle.program.specs.Meaning.{program};
ghost use Rattle.explore.specs.Found.{width, moves_of};
ghost use Rattle.explore.specs.Post.{Going, Expanded};

use crate::visit::visit;
use lent::table::Records;
use program::threads::Program;

// The moves of state `i`; none where there is one state more than may be.
pub fn expand(
    p: &Program,
    records: &mut Records<'_, '_>,
    limit: usize,
    i: usize,
    edges: &mut [u32],
    key: &mut [u32],
) -> Option<()>
    requires going { Going (program p.now) records.old.shape limit records.old.queue.now records.old.table.now edges.old records.old.n i 0 }
    requires key { length key.old ≡ width (length (program p.now)) }
    requires room { records.old.n + 8 < records.old.shape.room }
    requires told { limit < 2 ^ 32 }
    requires edges_end { i * moves_of (length (program p.now)) + moves_of (length (program p.now)) ≤ length edges.old }
    requires ends { limit * records.old.shape.width ≤ length records.old.queue.now }
    ensures expanded { Expanded (program p.now) records.old.shape limit i records.new.queue.now records.new.table.now edges.new records.new.n result }
    ensures shape { records.new.shape ≡ records.old.shape }
    ensures words { length records.new.queue.now ≡ length records.old.queue.now }
    ensures places { length records.new.table.now ≡ length records.old.table.now }
    ensures queue { records.new.queue.ghost_name ≡ records.old.queue.ghost_name }
    ensures table { records.new.table.ghost_name ≡ records.old.table.ghost_name }
{
    for m in 0..2 * p.count() {
        visit(p, records, limit, i, m, edges, key)?;
    }
    Some(())
}
