// Threads and programs. One that exists is within the limits: one to four threads of at most eight instructions,
// registers below 4, numbers below 16, places below 8. Neither takes memory from a heap.
ghost use Rattle.std.specs.Prelude.{◌≡◌, ◌≤◌, T, map, length};
ghost use Rattle.arrayvec.specs.ArrayVec.{array_vec_len};
ghost use Rattle.model.specs.Code.{ok_t};
ghost use Rattle.program.specs.Instructions.{instruction};

use crate::instructions::Instruction;
use arrayvec::ArrayVec;

#[derive(Drop)]
pub struct Thread {
    pub code: ArrayVec<Instruction, 8>,
    ghost few: { array_vec_len code ≤ 8 },
    ghost fine: { T (ok_t (map instruction code.items)) },
}

#[derive(Drop)]
pub struct Program {
    pub threads: ArrayVec<Thread, 4>,
    ghost one: { 1 ≤ array_vec_len threads },
    ghost few: { array_vec_len threads ≤ 4 },
}

// A thread with no instruction.
impl Default for Thread {
    fn default() -> Thread {
        Thread {
            code: ArrayVec::new(),
        }
    }
}
