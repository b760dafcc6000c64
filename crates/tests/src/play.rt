// Runs of the machine for examples: chosen moves, one after the other, from where every run begins.
ghost use Rattle.std.specs.Prelude.{◌≡◌, ◌+◌, ◌*◌, true, length};
ghost use Rattle.program.specs.Meaning.{program};
ghost use Rattle.machine.specs.Post.{Holds};

use machine::states::State;
use program::threads::Program;

#[derive(Clone, Copy)]
pub enum Turn {
    // a thread does its next instruction
    Next(usize),
    // a thread's oldest store goes to memory
    Out(usize),
    // a thread does its next instruction at once
    AtOnce(usize),
    // a thread does its next instruction, which is guarded if so
    Guarded(usize, bool),
}

// One move from a state into `to`; false where it can't be made, or the program has no such thread.
fn make(state: &State<'_>, turn: Turn, to: &mut [u32]) -> bool
    requires { length to.old ≡ length state.now.words.now }
    ensures { result ≡ true → Holds (program state.now.p.now) to.new }
{
    match turn {
        Turn::Next(n) => state.next(n, to),
        Turn::Out(n) => state.out(n, to),
        Turn::AtOnce(n) => state.at_once(n, to),
        Turn::Guarded(n, guard) => state.guarded(n, guard, to),
    }
}

// Makes the moves up to the first that can't be made, and answers how many. The state that they lead to is left in
// `state`; `spare` is of use on the way only.
pub fn play(p: &Program, turns: &[Turn], state: &mut [u32], spare: &mut [u32]) -> usize
    requires long { length state.old ≡ 1 + 3 * length (program p.now) }
    requires same { length spare.old ≡ length state.old }
{
    state.fill(0);
    for (i, turn) in turns.iter().enumerate() {
        let here = State { p, words: state };
        if !make(&here, *turn, spare) {
            return i;
        }
        state.copy_from_slice(spare);
    }
    turns.len()
}
