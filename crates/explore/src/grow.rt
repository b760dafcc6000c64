// The table grows by doubling as states come, so that few states touch few words.
ghost use Rattle.std.specs.Prelude.{◌≡◌, ◌+◌, ◌*◌, ◌^◌, ◌<◌, ◌≤◌, length};
ghost use Rattle.lent.specs.Table.{homes, Probed};
ghost use Rattle.explore.specs.Grown.{Larger, Roomy};

use lent::shape::Shape;
use lent::table::{Records, rebuild};

// A larger shape for the table, with room for the moves of one more state: twice the homes, half of them to be taken, as
// long as there are words for that; else room for all states that may be.
fn larger(shape: Shape, limit: usize, n: usize, places: usize) -> Shape
    requires few { n ≤ limit }
    requires told { limit < 2 ^ 32 }
    requires fits { homes shape + (limit + 9) ≤ places }
    ensures { Larger shape limit n places result }
{
    let all = limit + 9;
    if shape.bits >= 32 || (1usize << (shape.bits + 1)) + all > places {
        return Shape {
            width: shape.width,
            bits: shape.bits,
            room: all,
        };
    }
    let half = 1usize << shape.bits;
    let room = if n + 8 < half && half < all {
        half
    } else {
        all
    };
    Shape {
        width: shape.width,
        bits: shape.bits + 1,
        room,
    }
}

// The shape of a table with room for the moves of one more state: the same where there is room, else a larger one, for
// which the table is made anew.
pub fn make_room(shape: Shape, limit: usize, queue: &[u32], n: usize, table: &mut [u32]) -> Shape
    requires probed { Probed shape queue.now table.old n }
    requires few { n ≤ limit }
    requires told { limit < 2 ^ 32 }
    requires fits { homes shape + (limit + 9) ≤ length table.old }
    ensures { Roomy shape limit queue.now n table.new result }
{
    if n + 8 < shape.room {
        return shape;
    }
    let larger = larger(shape, limit, n, table.len());
    rebuild(larger, queue, n, table);
    larger
}

// The records, with room in their table for the moves of one more state. By value: behind a reference the queue, which is
// only read, would have to be lent to be written as well.
pub fn with_room<'q, 't>(records: Records<'q, 't>, limit: usize) -> Records<'q, 't>
    requires probed { Probed records.shape records.queue.now records.table.now records.n }
    requires few { records.n ≤ limit }
    requires told { limit < 2 ^ 32 }
    requires fits { homes records.shape + (limit + 9) ≤ length records.table.now }
    ensures roomy { Roomy records.entry.shape limit result.queue.now result.n result.table.now result.shape }
    ensures n { result.n ≡ records.entry.n }
    ensures states { result.queue.now ≡ records.entry.queue.now }
    ensures places { length result.table.now ≡ length records.entry.table.now }
    ensures queue { result.queue.ghost_name ≡ records.entry.queue.ghost_name }
    ensures table { result.table.ghost_name ≡ records.entry.table.ghost_name }
{
    let Records {
        shape,
        n,
        queue,
        table,
    } = records;
    let shape = make_room(shape, limit, queue, n, table);
    Records {
        shape,
        n,
        queue,
        table,
    }
}
