// What the state that a run has come to holds.
ghost use Rattle.std.specs.Prelude.{◌≡◌, slice_index};
ghost use Rattle.model.specs.Machine.{St, all_done, outcome};
ghost use Rattle.program.specs.Meaning.{program};
ghost use Rattle.machine.specs.Packed.{Packs};
ghost use Rattle.machine.specs.Post.{ThreadIs};
ghost use Rattle.replay.specs.Post.{state};

use crate::runs::Run;
use machine::states::State;
use machine::threads::ThreadState;
use once::finished::finished;
use report::outcomes::write_outcome;

impl Run {
    // The state that it has come to.
    pub fn state(&self) -> State<'_>
        ensures program { result.p.now ≡ self.now.p }
        ensures words { result.words.now ≡ state self.now }
    {
        State {
            p: &self.p,
            words: &self.words[0..1 + 3 * self.p.count()],
        }
    }

    // Whether all is done and nothing waits.
    pub fn is_finished(&self) -> bool
        ensures { (s : St) → Packs (state self.now) s → result ≡ all_done (program self.now.p) s.threads }
    {
        finished(&self.p, self.state().words)
    }

    // Thread `n`, if the program has it.
    pub fn thread(&self, n: usize) -> Option<ThreadState>
        ensures { (s : St) → Packs (state self.now) s → ThreadIs s n result }
    {
        self.state().thread(n)
    }

    // What stands at `at` among all registers, thread by thread, and behind them memory; 0 past its end.
    pub fn value(&self, at: usize) -> u32
        ensures { (s : St) → Packs (state self.now) s → result ≡ slice_index (outcome s) at }
    {
        let threads = self.p.count();
        let mut row = [0; 25];
        write_outcome(threads, 0, self.state().words, &mut row, 0);
        if at >= 8 + 4 * threads {
            return 0;
        }
        row[at + 1]
    }
}
