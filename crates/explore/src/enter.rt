// Finding a state's record again, or writing it behind the others.
ghost use Rattle.std.specs.Prelude.{◌≡◌, ◌+◌, ◌*◌, ◌^◌, ◌<◌, ◌≤◌, length};
ghost use Rattle.lent.specs.Table.{Probed};
ghost use Rattle.explore.specs.Post.{EnteredAs};

use lent::table::Records;

// The number of the record that is the key, which is written behind the others if it is new; none where it is new and all
// is full. The limit is passed beside the records, and what it bounds is a clause, since no struct may hold `Records`.
pub fn enter(records: &mut Records<'_, '_>, limit: usize, key: &[u32]) -> Option<usize>
    requires probed { Probed records.old.shape records.old.queue.now records.old.table.now records.old.n }
    requires room { records.old.n < records.old.shape.room }
    requires few { records.old.n ≤ limit }
    requires told { limit < 2 ^ 32 }
    requires ends { limit * records.old.shape.width ≤ length records.old.queue.now }
    requires whole { length key.now ≡ records.old.shape.width }
    ensures entered { EnteredAs records.old.shape limit records.old.queue.now records.old.table.now records.old.n key.now records.new.queue.now records.new.table.now records.new.n result }
    ensures shape { records.new.shape ≡ records.old.shape }
    ensures words { length records.new.queue.now ≡ length records.old.queue.now }
    ensures places { length records.new.table.now ≡ length records.old.table.now }
    ensures queue { records.new.queue.ghost_name ≡ records.old.queue.ghost_name }
    ensures table { records.new.table.ghost_name ≡ records.old.table.ghost_name }
{
    match records.find(key) {
        Ok(j) => Some(j),
        Err(_) if records.n >= limit => None,
        Err(place) => {
            let j = records.n;
            records.insert(place, key);
            Some(j)
        }
    }
}
