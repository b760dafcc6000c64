// Where a thread of a state as words stands, by its first word: which instruction is next, and whether a store waits.
ghost use Rattle.std.specs.Prelude.{◌≡◌, ◌+◌, ◌*◌, ◌<◌, length};
ghost use Rattle.std.proofs.Math.Option.{some};
ghost use Rattle.model.specs.Code.{nth};
ghost use Rattle.model.specs.Machine.{At, St, empty};
ghost use Rattle.machine.specs.Packed.{Packs};

// The number of the next instruction of thread `n`.
pub fn pc(state: &[u32], n: usize) -> usize
    requires { 3 + 3 * n < length state.now }
    ensures { (s : St) (a : At) → Packs state.now s → nth s.threads n ≡ some a → result ≡ a.pc }
{
    ((state[1 + 3 * n] >> 16) & 15) as usize
}

// Does no store of thread `n` wait?
pub fn nothing_waits(state: &[u32], n: usize) -> bool
    requires { 3 + 3 * n < length state.now }
    ensures { (s : St) (a : At) → Packs state.now s → nth s.threads n ≡ some a → result ≡ empty a.waits }
{
    state[1 + 3 * n] >> 20 == 0
}
