// The store-buffer machine in code: a thread's registers and row of waiting stores, one move, and states as words.
#![tactic(auto)]

ghost use Rattle.std.specs.Prelude.{◌≡◌, true};
ghost use Rattle.machine.specs.Words.{WordsAreStates};

pub mod at_once;
pub mod buffer;
pub mod guarded;
pub mod moves;
pub mod packed;
pub mod rows;
pub mod standing;
pub mod states;
pub mod step;
pub mod stores;
pub mod threads;

// That states and their words are one another, for its contract: the crate is refused without the proof.
pub fn words_are_states() -> bool
    ensures { (result ≡ true) × WordsAreStates }
{
    true
}
