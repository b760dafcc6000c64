// Which edges a search may take. Kept successors are words: at `node * width + move` stands 0 where there is no edge, else
// the node come to, plus 1. The same words are searched under several rules.
ghost use Rattle.std.specs.Prelude.{◌≡◌, ℕ};
ghost use Rattle.graph.specs.Rules.{word_of, kept, Keeps, joined, Joins};

// The node that an edge leads to, and what it costs to take it.
#[derive(Clone, Copy)]
pub struct Edge {
    pub target: u32,
    pub cost: u32,
}

pub trait Rule {
    // Where an edge may be asked for.
    ghost can: { Self → ℕ → ℕ → Type 0 };

    // Node and move to where the move leads, as the kept words have it.
    ghost next: { Self → ℕ → ℕ → ℕ };

    // The edge of a move, if there is one that may be taken. Costs are in no contract: they only steer which walk is found.
    fn edge(&self, node: usize, by: usize) -> Option<Edge>
        requires { can self.now node by }
        ensures { word_of result ≡ next self.now node by };
}

// All kept edges, at no cost.
#[derive(Clone, Copy)]
pub struct Kept<'a> {
    pub edges: &'a [u32],
    pub width: usize,
}

impl Rule for Kept<'_> {
    ghost can = { λ s. Keeps s.edges.now s.width };

    ghost next = { λ s. kept s.edges.now s.width };

    fn edge(&self, node: usize, by: usize) -> Option<Edge> {
        let target = self.edges[node * self.width + by].checked_sub(1)?;
        Some(Edge { target, cost: 0 })
    }
}

// A move and, where there is such an edge, `shift` moves further on, as one edge.
#[derive(Clone, Copy)]
pub struct Joined<R> {
    pub rule: R,
    pub shift: usize,
}

impl<R: Rule> Rule for Joined<R> {
    ghost can = { λ s. Joins (R.Rule.can s.rule) (R.Rule.next s.rule) s.shift };

    ghost next = { λ s. joined (R.Rule.next s.rule) s.shift };

    fn edge(&self, node: usize, by: usize) -> Option<Edge> {
        let first = self.rule.edge(node, by)?;
        let Some(second) = self.rule.edge(first.target as usize, by + self.shift) else {
            return Some(first);
        };
        Some(Edge {
            target: second.target,
            cost: first.cost.saturating_add(second.cost),
        })
    }
}
