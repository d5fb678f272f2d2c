// The preorder walk over the slots of a pool: the walk to node i, and the number of nodes that a tree has.
ghost use Rattle.std.specs.Prelude.{◌≡◌, suc};
ghost use Rattle.words.specs.Words.{words};
ghost use Rattle.slots.specs.Nodes.{nodes};
ghost use Rattle.model.specs.Frame.{nodes_in};
ghost use Rattle.tree.specs.Bridge.{tree_at};
ghost use Rattle.frame.specs.Promises.{ToFind, Located};

use crate::Stop;
use model::Settings;
use std::ops::ControlFlow;
use tree_node::child_at;

// Goes through the tree of height `height` in slot `s` in preorder, up to node `i`. Where it has fewer nodes the walk goes on behind it, with the number
// that is left.
pub fn find(
    pool: &[u8],
    st: Settings,
    height: usize,
    s: usize,
    i: usize,
) -> ControlFlow<Stop, usize>
    requires { ToFind st (words pool.now) height s }
    ensures { Located st (words pool.now) height s i result }
{
    if i == 0 {
        return ControlFlow::Break(Stop { slot: s, height });
    }
    let mut left = i - 1;
    if height == 0 {
        return ControlFlow::Continue(left);
    }
    let n = slots::count(pool, st, s);
    for j in 0..n {
        let child = child_at(pool, st, s, j);
        left = find(pool, st, height - 1, child, left)?;
    }
    ControlFlow::Continue(left)
}

// How many nodes the tree of height `height` in slot `s` has.
pub fn nodes_in(pool: &[u8], st: Settings, height: usize, s: usize) -> usize
    requires { ToFind st (words pool.now) height s }
    ensures { result ≡ nodes_in (suc height) (tree_at (nodes st (words pool.now)) height s) }
{
    let mut total = 1;
    if height == 0 {
        return total;
    }
    let n = slots::count(pool, st, s);
    for j in 0..n {
        let child = child_at(pool, st, s, j);
        total += nodes_in(pool, st, height - 1, child);
    }
    total
}
