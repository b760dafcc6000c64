// Which states are finished: every instruction is done and nothing waits.
ghost use Rattle.std.specs.Prelude.{◌≡◌, ◌+◌, ◌*◌, ◌<◌, ◌&&◌, ◌==◌, length};
ghost use Rattle.std.proofs.Math.Option.{some};
ghost use Rattle.model.specs.Code.{nth};
ghost use Rattle.model.specs.Machine.{At, St, empty, all_done};
ghost use Rattle.program.specs.Meaning.{thread, program};
ghost use Rattle.machine.specs.Packed.{Packs};
ghost use Rattle.explore.specs.Found.{width};

use machine::standing::{nothing_waits, pc};
use program::threads::{Program, Thread};

// Is thread `n`, whose code is `t`, at its end, with no store of it waiting?
fn ended(t: &Thread, state: &[u32], n: usize) -> bool
    requires { 3 + 3 * n < length state.now }
    ensures { (s : St) (a : At) → Packs state.now s → nth s.threads n ≡ some a → result ≡ (a.pc == length (thread t.now) && empty a.waits) }
{
    pc(state, n) == t.instructions().len() && nothing_waits(state, n)
}

// Has every thread ended?
pub fn finished(p: &Program, state: &[u32]) -> bool
    requires { length state.now ≡ width (length (program p.now)) }
    ensures { (s : St) → Packs state.now s → result ≡ all_done (program p.now) s.threads }
{
    for (n, t) in p.threads().iter().enumerate() {
        if !ended(t, state, n) {
            return false;
        }
    }
    true
}
