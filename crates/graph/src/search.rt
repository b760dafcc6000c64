// The search: one pass over the nodes, in their order. Since every edge leads ahead, a node's cost is final when the pass
// comes to it, so that one pass finds the least costs. In the lent words a cost is kept plus 1, and 0 is "not come to".
// `cost` and `from` go along as two slices: each method of a struct of both would have to promise, by a clause for each, that
// its fields still hold the caller's slices, or the caller would not know what they hold afterwards.
ghost use Rattle.std.specs.Prelude.{◌≡◌, ◌<◌, ◌≤◌, length, drop, slice_index};
ghost use Rattle.graph.specs.Rules.{Ahead};
ghost use Rattle.graph.specs.Walks.{Leads};
ghost use Rattle.graph.specs.Search.{Searched, Begun, Steps, Grown};

use crate::rules::{Edge, Rule};

// Goes along one edge of `node`, which was come to at `cost_here`.
fn relax(edge: Edge, node: usize, cost_here: u32, cost: &mut [u32], from: &mut [u32])
    requires come { 0 < cost_here }
    requires ahead { node < edge.target }
    requires in_cost { edge.target < length cost.old }
    requires in_from { edge.target < length from.old }
    ensures { Grown (λ k. edge.target ≡ k) node cost.old from.old cost.new from.new }
{
    let to = edge.target as usize;
    let sum = cost_here.saturating_add(edge.cost);
    if cost[to] == 0 || sum < cost[to] {
        cost[to] = sum;
        from[to] = node as u32;
    }
}

// Goes along all edges of `node`, if it was come to.
fn visit<R: Rule>(rule: &R, moves: usize, node: usize, cost: &mut [u32], from: &mut [u32])
    requires within { node < length cost.old }
    requires steps { Steps (R.can rule.now node) (R.next rule.now node) moves node cost.old from.old }
    ensures { Grown (λ k. (0 < slice_index cost.old node) × Leads (R.next rule.now) moves node k) node cost.old from.old cost.new from.new }
{
    let cost_here = cost[node];
    if cost_here == 0 {
        return;
    }
    for m in 0..moves {
        if let Some(edge) = rule.edge(node, m) {
            relax(edge, node, cost_here, cost, from);
        }
    }
}

// The start alone is come to.
fn begin(n: usize, cost: &mut [u32])
    requires some { 0 < n }
    requires room { n ≤ length cost.old }
    ensures { Begun n cost.old cost.new }
{
    cost[0..n].fill(0);
    cost[0] = 1;
}

// Marks the nodes that walks from node 0 lead to, with their least costs, and where each was come to from.
pub fn search<R: Rule>(rule: &R, n: usize, moves: usize, cost: &mut [u32], from: &mut [u32])
    requires ahead { Ahead (R.can rule.now) (R.next rule.now) moves n }
    requires some { 0 < n }
    requires in_cost { n ≤ length cost.old }
    requires in_from { n ≤ length from.old }
    ensures searched { Searched (R.next rule.now) moves n cost.new from.new }
    ensures cost_behind { drop n cost.new ≡ drop n cost.old }
    ensures from_behind { drop n from.new ≡ drop n from.old }
{
    begin(n, cost);
    for node in 0..n {
        visit(rule, moves, node, cost, from);
    }
}
