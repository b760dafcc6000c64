// The rule of guards: an edge may be taken unless it passes a guarded spot while something of its thread waits.
ghost use Rattle.guard.specs.Rules.{guarded, Askable};

use crate::hits::States;
use graph::rules::{Edge, Rule};

// All kept edges but those that the guards forbid. An edge that passes a spot costs 1, so that a search finds runs that
// pass few.
#[derive(Clone, Copy)]
pub struct Guarded<'a> {
    pub states: States<'a>,
    pub guards: u32,
}

impl Rule for Guarded<'_> {
    ghost can = { λ s. Askable s.states.threads s.states.queue.now s.states.edges.now };

    ghost next = { λ s. guarded s.states.threads s.states.queue.now s.states.edges.now s.guards };

    fn edge(&self, node: usize, by: usize) -> Option<Edge> {
        let states = &self.states;
        let target = states.edges[node * (2 * states.threads) + by].checked_sub(1)?;
        let passed = states.hit(node, by);
        if passed & self.guards != 0 {
            return None;
        }
        Some(Edge {
            target,
            cost: u32::from(passed != 0),
        })
    }
}
