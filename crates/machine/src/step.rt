// One instruction of a thread.
ghost use Rattle.std.specs.Prelude.{◌≡◌, ◌+◌, ◌<◌, ◌≤◌, T};
ghost use Rattle.lent.specs.Nibbles.{nibbles};
ghost use Rattle.model.specs.Code.{ok_i, put};
ghost use Rattle.model.specs.Machine.{done};
ghost use Rattle.program.specs.Instructions.{instruction};
ghost use Rattle.machine.specs.Meaning.{at, waits};
ghost use Rattle.machine.specs.Post.{Did};

use crate::rows::Row;
use crate::stores::Store;
use crate::threads::ThreadState;
use lent::nibbles::{nibble, with_nibble};
use program::instructions::{Instruction, Register};

impl ThreadState {
    // The next instruction done, and then these registers and this row.
    fn done(&self, regs: u32, row: Row) -> ThreadState
        requires more { self.now.pc < 8 }
        requires four { regs < 65536 }
        requires held { row.begin + row.len ≤ self.now.pc + 1 }
        ensures { at result ≡ done (at self.now) (nibbles 4 regs) (waits row) }
    {
        ThreadState {
            pc: self.pc + 1,
            regs,
            row,
        }
    }

    // The next instruction done, and with it a number put into a register.
    fn with_register(&self, r: Register, value: u32) -> ThreadState
        requires more { self.now.pc < 8 }
        requires register { r.0 < 4 }
        requires value { value < 16 }
        ensures { at result ≡ done (at self.now) (put (at self.now).regs r.0 value) (at self.now).waits }
    {
        self.done(with_nibble(self.regs, r.0, value), self.row)
    }

    // The thread with the instruction done, where memory is as given; none for a fence while a store waits.
    pub fn does(&self, memory: u32, i: Instruction) -> Option<ThreadState>
        requires more { self.now.pc < 8 }
        requires fine { T (ok_i (instruction i)) }
        ensures { Did (nibbles 8 memory) (at self.now) (instruction i) result }
    {
        match i {
            Instruction::Set(r, n) => Some(self.with_register(r, n)),
            Instruction::Add(r, a, b) => {
                let sum = nibble(self.regs, a.0) + nibble(self.regs, b.0);
                Some(self.with_register(r, sum & 15))
            }
            Instruction::Load(r, x) => {
                let value = self.row.newest(x, nibble(memory, x.0));
                Some(self.with_register(r, value))
            }
            Instruction::Store(x, r) => {
                let row = self.row.pushed(Store {
                    place: x,
                    value: nibble(self.regs, r.0),
                });
                Some(self.done(self.regs, row))
            }
            Instruction::Fence => {
                if self.row.len == 0 {
                    Some(self.done(self.regs, self.row))
                } else {
                    None
                }
            }
        }
    }
}
