// Moves of the machine on states as words: a thread's next instruction, a thread's oldest store going to memory.
ghost use Rattle.std.specs.Prelude.{◌≡◌, length};
ghost use Rattle.model.specs.Machine.{next as next_move, out as out_move, move};
ghost use Rattle.program.specs.Meaning.{program};
ghost use Rattle.machine.specs.Meaning.{meant, numbered};
ghost use Rattle.machine.specs.Post.{Stepped};

use crate::states::{State, put_thread};
use crate::threads::ThreadState;
use lent::nibbles::with_nibble;
use program::instructions::ThreadNumber;

#[derive(Clone, Copy, PartialEq, Eq, Debug)]
pub enum Move {
    // a thread's next instruction
    Next(ThreadNumber),
    // a thread's oldest waiting store going to memory
    Out(ThreadNumber),
}

impl Move {
    // Move `m` of so many threads: the next instruction of thread `m`; from the number of threads on, the oldest store of
    // the thread with so much less.
    pub fn numbered(threads: usize, m: u32) -> Move
        ensures { meant result ≡ numbered threads m }
    {
        if (m as usize) < threads {
            Move::Next(ThreadNumber(m))
        } else {
            Move::Out(ThreadNumber(m - threads as u32))
        }
    }
}

impl State<'_> {
    // The move: into `to` the state that it leads to, where it can be made.
    pub fn make(&self, m: Move, to: &mut [u32]) -> bool
        requires { length to.old ≡ length self.now.words.now }
        ensures { Stepped (λ s. move (program self.now.p.now) s (meant m)) self.now.words.now result to.new }
    {
        match m {
            Move::Next(n) => self.next(n.0 as usize, to),
            Move::Out(n) => self.out(n.0 as usize, to),
        }
    }

    // The next instruction of thread `n`: into `to` the state that it leads to, where it can be done.
    pub fn next(&self, n: usize, to: &mut [u32]) -> bool
        requires { length to.old ≡ length self.now.words.now }
        ensures { Stepped (λ s. move (program self.now.p.now) s (next_move n)) self.now.words.now result to.new }
    {
        let Some(done) = self.thread_after(n) else {
            return false;
        };
        to.copy_from_slice(self.words);
        put_thread(to, n, &done);
        true
    }

    // The oldest store of thread `n` going to memory: into `to` the state that it leads to, where one waits.
    pub fn out(&self, n: usize, to: &mut [u32]) -> bool
        requires { length to.old ≡ length self.now.words.now }
        ensures { Stepped (λ s. move (program self.now.p.now) s (out_move n)) self.now.words.now result to.new }
    {
        let Some(thread) = self.thread(n) else {
            return false;
        };
        if thread.row.len == 0 {
            return false;
        }
        let oldest = thread.row.oldest();
        let after = ThreadState {
            pc: thread.pc,
            regs: thread.regs,
            row: thread.row.rest(),
        };
        to.copy_from_slice(self.words);
        put_thread(to, n, &after);
        to[0] = with_nibble(self.words[0], oldest.place.0, oldest.value);
        true
    }
}
