// A state of a program, as words, and its threads.
ghost use Rattle.std.specs.Prelude.{◌≡◌, ◌+◌, ◌*◌, ◌<◌, length};
ghost use Rattle.model.specs.Machine.{St, with_thread};
ghost use Rattle.program.specs.Meaning.{program};
ghost use Rattle.machine.specs.Meaning.{at};
ghost use Rattle.machine.specs.Packed.{Packs};
ghost use Rattle.machine.specs.Post.{Holds, NextIs, ThreadIs, ThreadAfter};

use crate::packed::{pack_thread, unpack_thread};
use crate::threads::ThreadState;
use program::instructions::Instruction;
use program::threads::Program;

#[derive(Clone, Copy)]
pub struct State<'a> {
    pub p: &'a Program,
    pub words: &'a [u32],
    ghost held: { ∥ Holds (program p.now) words.now ∥₁ },
}

impl State<'_> {
    // Thread `n`, if the program has it.
    pub fn thread(&self, n: usize) -> Option<ThreadState>
        ensures { (s : St) → Packs self.now.words.now s → ThreadIs s n result }
    {
        if n >= self.p.count() {
            return None;
        }
        Some(unpack_thread(
            self.words[1 + 3 * n],
            self.words[2 + 3 * n],
            self.words[3 + 3 * n],
        ))
    }

    // The next instruction of thread `n`, if there is one.
    pub fn instruction(&self, n: usize) -> Option<Instruction>
        ensures { (s : St) → Packs self.now.words.now s → NextIs (program self.now.p.now) s n result }
    {
        self.p.instruction(n, self.thread(n)?.pc)
    }

    // Thread `n` with its next instruction done, where it can be done.
    pub fn thread_after(&self, n: usize) -> Option<ThreadState>
        ensures { (s : St) → Packs self.now.words.now s → ThreadAfter (program self.now.p.now) s n result }
    {
        let thread = self.thread(n)?;
        let i = self.p.instruction(n, thread.pc)?;
        thread.does(self.words[0], i)
    }
}

// Puts a thread into a state.
pub(crate) fn put_thread(state: &mut [u32], n: usize, t: &ThreadState)
    requires room { 3 + 3 * n < length state.old }
    requires held { (s : St) × Packs state.old s × (n < length s.threads) }
    ensures { (s : St) → Packs state.old s → Packs state.new (with_thread s n (at t.now)) }
{
    let words = pack_thread(t);
    state[1 + 3 * n] = words[0];
    state[2 + 3 * n] = words[1];
    state[3 + 3 * n] = words[2];
}
