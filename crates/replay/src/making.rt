// A run from its beginning on, move by move.
ghost use Rattle.std.specs.Prelude.{◌≡◌, []};
ghost use Rattle.program.specs.Meaning.{program};
ghost use Rattle.replay.specs.Runs.{told, Comes, Made};
ghost use Rattle.replay.specs.Post.{state, Replayed};

use crate::runs::Run;
use machine::moves::Move;
use program::threads::Program;

impl Run {
    // Where every run of the program begins: all is 0.
    pub fn begin(p: Program) -> Run
        ensures program { result.p ≡ p }
        ensures begins { Comes (program p) [] (state result) }
    {
        Run { p, words: [0; 13] }
    }

    // Makes the move that the word tells. False where it can't be made: then the state is as it was.
    pub fn make(&mut self, word: u32) -> bool
        ensures program { self.new.p ≡ self.old.p }
        ensures made { Made (program self.old.p) word (state self.old) result (state self.new) }
    {
        let len = 1 + 3 * self.p.count();
        let mut to = self.words;
        if !self.state().make(Move::numbered(4, word), &mut to[0..len]) {
            return false;
        }
        self.words = to;
        true
    }
}

// The run that the words tell, from the beginning on; none where one of its moves can't be made.
pub fn replayed(p: Program, words: &[u32]) -> Option<Run>
    ensures { Replayed (program p) (told words.now) result }
{
    let mut run = Run::begin(p);
    for word in words {
        if !run.make(*word) {
            return None;
        }
    }
    Some(run)
}
