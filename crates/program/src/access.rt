// Reading a program: its threads, and their instructions.
ghost use Rattle.std.specs.Prelude.{◌≡◌, ◌≤◌, length};
ghost use Rattle.program.specs.Meaning.{program};
ghost use Rattle.program.specs.Post.{InstructionAt};

use crate::instructions::Instruction;
use crate::threads::{Program, Thread};

impl Thread {
    pub fn instructions(&self) -> &[Instruction]
        ensures are { result.now ≡ self.now.code.items }
        ensures few { length result.now ≤ 8 }
    {
        self.code.as_slice()
    }
}

impl Program {
    pub fn threads(&self) -> &[Thread]
        ensures { result.now ≡ self.now.threads.items }
    {
        self.threads.as_slice()
    }

    // How many threads there are.
    pub fn count(&self) -> usize
        ensures value { result ≡ length (program self.now) }
        ensures some { 1 ≤ result }
        ensures few { result ≤ 4 }
    {
        self.threads.len()
    }

    // The instruction `pc` of thread `n`, if the thread has one there.
    pub fn instruction(&self, n: usize, pc: usize) -> Option<Instruction>
        ensures { InstructionAt (program self.now) n pc result }
    {
        self.threads().get(n)?.instructions().get(pc).copied()
    }
}
