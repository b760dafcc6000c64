// A move under a guard: a guarded instruction may be done only if no store of its thread waits. It is what a fence
// right before the instruction does, and the program stays as it is.
ghost use Rattle.std.specs.Prelude.{◌≡◌, length};
ghost use Rattle.model.specs.Machine.{next as next_move};
ghost use Rattle.model.specs.Guards.{gmove};
ghost use Rattle.program.specs.Meaning.{program};
ghost use Rattle.machine.specs.Post.{Stepped};

use crate::standing::nothing_waits;
use crate::states::State;

impl State<'_> {
    // The next instruction of thread `n`, where `guard` says whether it is guarded: into `to` the state that it leads to,
    // where it can be done. Of all guards a move asks just one, that of its own instruction, whose number is
    // `standing::pc`.
    pub fn guarded(&self, n: usize, guard: bool, to: &mut [u32]) -> bool
        requires { length to.old ≡ length self.now.words.now }
        ensures { Stepped (λ s. gmove (λ _ _. guard) (program self.now.p.now) s (next_move n)) self.now.words.now result to.new }
    {
        if n >= self.p.count() {
            return false;
        }
        if guard && !nothing_waits(self.words, n) {
            return false;
        }
        self.next(n, to)
    }
}
