// What a run passes in all.
ghost use Rattle.std.specs.Prelude.{◌≡◌, suc, ◌+◌, ◌*◌, ◌^◌, ◌<◌, ◌≤◌, MatchOption};
ghost use Rattle.graph.specs.Rules.{kept};
ghost use Rattle.explore.specs.Found.{moves_of};
ghost use Rattle.guard.specs.Rules.{AllHits};

use crate::hits::States;

impl States<'_> {
    // The state that move `by` of state `node` leads to, if a kept edge says so.
    fn target(&self, node: usize, by: usize) -> Option<u32>
        requires few { self.now.threads ≤ 4 }
        requires node { node < 2 ^ 32 }
        requires by { by < 2 ^ 32 }
        ensures { MatchOption result (kept self.now.edges.now (moves_of self.now.threads) node by ≡ 0) (λ j. kept self.now.edges.now (moves_of self.now.threads) node by ≡ suc j) }
    {
        self.edges
            .get(node * (2 * self.threads) + by)?
            .checked_sub(1)
    }

    // All spots that the moves of `path` pass from the first state on, as bits. It stops where a move can't be made, so that
    // any path will do.
    pub fn run_hits(&self, path: &[u32]) -> u32
        requires { self.now.threads ≤ 4 }
        ensures { AllHits self.now.threads self.now.queue.now self.now.edges.now path.now result }
    {
        let width = 1 + 3 * self.threads;
        let mut node = 0;
        let mut passed = 0;
        for by in path {
            let by = *by as usize;
            if node * width + width > self.queue.len() {
                return passed;
            }
            let Some(target) = self.target(node, by) else {
                return passed;
            };
            passed |= self.hit(node, by);
            node = target as usize;
        }
        passed
    }
}
