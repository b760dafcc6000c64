// A step of the machine at once: a thread's next instruction, and if it is a store, a store going to memory in the same
// step.
ghost use Rattle.std.specs.Prelude.{◌≡◌, length};
ghost use Rattle.model.specs.Machine.{is_store, at_once};
ghost use Rattle.program.specs.Instructions.{instruction};
ghost use Rattle.program.specs.Meaning.{program};
ghost use Rattle.machine.specs.Post.{Stepped};

use crate::states::State;
use program::instructions::Instruction;

fn is_store(i: Instruction) -> bool
    ensures { result ≡ is_store (instruction i) }
{
    matches!(i, Instruction::Store(_, _))
}

impl State<'_> {
    // The next instruction of thread `n` at once: into `to` the state that it leads to, where it can be done.
    pub fn at_once(&self, n: usize, to: &mut [u32]) -> bool
        requires { length to.old ≡ length self.now.words.now }
        ensures { Stepped (λ s. at_once (program self.now.p.now) s n) self.now.words.now result to.new }
    {
        let Some(i) = self.instruction(n) else {
            return false;
        };
        if !self.next(n, to) {
            return false;
        }
        if !is_store(i) {
            return true;
        }
        // the state in which the store waits: four threads have 13 words, and no program has more
        let mut words = [0; 13];
        let waiting = &mut words[0..self.words.len()];
        waiting.copy_from_slice(to);
        let stored = State {
            p: self.p,
            words: waiting,
        };
        stored.out(n, to)
    }
}
