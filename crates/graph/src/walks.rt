// Reads a walk back that a search found. The search keeps only the node that each was come to from, so that its inner loop
// writes little; the moves are found again here.
ghost use Rattle.std.specs.Prelude.{◌≡◌, ℕ, suc, ◌+◌, ◌^◌, ◌<◌, ◌≤◌, length};
ghost use Rattle.graph.specs.Walks.{Leads};
ghost use Rattle.graph.specs.Search.{Links};
ghost use Rattle.graph.specs.Back.{Traced, Written, Told};

use crate::rules::Rule;

// How many links lead from `to` back to the start. A chain of links has no iterator of its own: `len` is what is asked for.
fn count_links(from: &[u32], to: usize) -> usize
    requires { (d : ℕ) × Links from.now d to }
    ensures { Links from.now result to }
{
    let mut node = to;
    let mut len = 0;
    'back: while node != 0 {
        node = from[node] as usize;
        len += 1;
    }
    len
}

// The first move that leads from `node` to `to`. Where several do, at different costs, it may not be the one that the search
// counted.
fn find_move<R: Rule>(rule: &R, moves: usize, node: usize, to: usize) -> usize
    requires may { (m : ℕ) → m < moves → R.can rule.now node m }
    requires leads { Leads (R.next rule.now) moves node to }
    ensures below { result < moves }
    ensures leads { R.next rule.now node result ≡ suc to }
{
    // not `find`: from its answer `None` it is not proved that the end is not come to
    for m in 0..moves {
        let edge = rule.edge(node, m);
        if edge.is_some_and(|edge| edge.target as usize == to) {
            return m;
        }
    }
    unreachable()
}

// Writes the moves of the walk to `to` into the first `len` words, the last move first.
fn fill_path<R: Rule>(rule: &R, moves: usize, from: &[u32], to: usize, len: usize, path: &mut [u32])
    requires few { moves ≤ 2 ^ 32 }
    requires traced { Traced (R.can rule.now) (R.next rule.now) moves from.now to }
    requires links { Links from.now len to }
    requires room { len ≤ length path.old }
    ensures { Written (R.next rule.now) moves to len path.old path.new }
{
    let mut node = to;
    for at in (0..len).rev() {
        let before = from[node] as usize;
        path[at] = find_move(rule, moves, before, node) as u32;
        node = before;
    }
}

// Writes the moves of the walk to `to` that a search found into `path`, and says how many they are; `None` where they are
// more than `path` has words. What stands behind them in `path` is as it was.
pub fn walk_back<R: Rule>(
    rule: &R,
    moves: usize,
    from: &[u32],
    to: usize,
    path: &mut [u32],
) -> Option<usize>
    requires few { moves ≤ 2 ^ 32 }
    requires traced { Traced (R.can rule.now) (R.next rule.now) moves from.now to }
    ensures { Told (R.next rule.now) moves to path.old path.new result }
{
    let len = count_links(from, to);
    if len > path.len() {
        return None;
    }
    fill_path(rule, moves, from, to, len, path);
    Some(len)
}
