// A program, and the state that some run of it comes to.
ghost use Rattle.std.specs.Prelude.{◌≡◌, ◌+◌, ◌*◌, length, take};
ghost use Rattle.program.specs.Meaning.{program};
ghost use Rattle.replay.specs.Runs.{Reached};

use program::threads::Program;

// The state's words are the first 1 + 3 * threads; what stands behind them says nothing.
#[derive(Drop)]
pub struct Run {
    pub p: Program,
    pub words: [u32; 13],
    ghost long: { length words ≡ 13 },
    ghost reached: { ∥ Reached (program p) (take (1 + 3 * length (program p)) words) ∥₁ },
}
