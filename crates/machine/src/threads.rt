// A thread of the machine: which instruction is next, four registers as 4-bit fields of a u32, and its row of waiting
// stores. The row never holds more than the thread has done, so a store always finds room.
ghost use Rattle.std.specs.Prelude.{◌+◌, ◌<◌, ◌≤◌};

use crate::rows::Row;

#[derive(Clone, Copy)]
pub struct ThreadState {
    pub pc: usize,
    pub regs: u32,
    pub row: Row,
    ghost few: { pc ≤ 8 },
    ghost four: { regs < 65536 },
    ghost held: { row.begin + row.len ≤ pc },
}
