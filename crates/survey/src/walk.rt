// The walk over a tree of a pool that has the right length. It reads each node that it opens from its first word to its last: head,
// rows, and the zeros past them.
//
// Before it goes down from an interior it reads the first word of every child. Where the nodes of a tree lie scattered over a large
// pool, a first word is waited for; in a loop of their own the children's words come together, in place of one after another.
ghost use Rattle.std.specs.Prelude.{◌≡◌, ◌<◌};
ghost use Rattle.words.specs.Words.{words};
ghost use Rattle.slots_raw.specs.Promises.{Shape};
ghost use Rattle.slots.specs.Nodes.{nodes, rows_at};
ghost use Rattle.tree.specs.Pool.{first_child, height_at};
ghost use Rattle.survey_node.specs.Parts.{least_root};
ghost use Rattle.survey_node.specs.Promises.{There, Checked, Walked};

use model::Settings;
use survey_node::{Part, begin, check_leaf, grow, interior_right, row_right, there};

// How many interiors there are down the left edge, at most 8. What is right about them the walk will tell.
pub fn left_edge(pool: &[u8], st: Settings) -> usize
    requires { Shape st (words pool.now) }
    ensures { result ≡ height_at (nodes st (words pool.now)) 8 st.root }
{
    let mut s = st.root;
    for height in 0..8 {
        if st.nodes <= s {
            return height;
        }
        if slots_raw::raw_kind(pool, st, s) != slots::INTERIOR {
            return height;
        }
        s = first_child(pool, st, s);
    }
    8
}

// The slot that the first row of slot `s` names, if it has one.
fn first_child(pool: &[u8], st: Settings, s: usize) -> usize
    requires { Shape st (words pool.now) × (s < st.nodes) }
    ensures { result ≡ first_child (rows_at st (words pool.now) s) }
{
    if slots_raw::raw_count(pool, st, s) == 0 {
        return 0;
    }
    tree_rows::child_of(slots_raw::raw_row(pool, st, s, 0))
}

// Walks over a tree, which may have `left` nodes. Where it is that of a sound pool, answers how many nodes may still be opened.
pub fn walk_tree(pool: &[u8], st: Settings, height: usize, left: usize) -> Option<usize>
    requires shape { Shape st (words pool.now) }
    requires edge { height ≡ height_at (nodes st (words pool.now)) 8 st.root }
    ensures { Walked st (words pool.now) left result }
{
    if 7 < height {
        return None;
    }
    if !there(pool, st, height, st.root) {
        return None;
    }
    let least = least_root(height);
    let tree = check_node(pool, st, height, st.root, least, None, left)?;
    Some(tree.left)
}

// Tests the tree of height `height` in slot `s`, whose root has `least` rows or more, and which may have `left` nodes. Its keys must
// all be above `last`, the last one met, if one was met.
#[cycle(check_interior_check_node)]
fn check_node(
    pool: &[u8],
    st: Settings,
    height: usize,
    s: usize,
    least: usize,
    last: Option<u64>,
    left: usize,
) -> Option<Part>
    requires shape { Shape st (words pool.now) }
    requires there { There st (words pool.now) height s }
    ensures { Checked st (words pool.now) height s least last left result }
{
    if height == 0 {
        return check_leaf(pool, st, s, least, last, left);
    }
    check_interior(pool, st, height, s, least, last, left)
}

// The same of an interior. Separators and totals are compared on the way up.
#[cycle(check_interior_check_node)]
fn check_interior(
    pool: &[u8],
    st: Settings,
    height: usize,
    s: usize,
    least: usize,
    last: Option<u64>,
    left: usize,
) -> Option<Part>
    requires shape { Shape st (words pool.now) }
    requires there { There st (words pool.now) height s }
    requires interior { 0 < height }
    ensures { Checked st (words pool.now) height s least last left result }
{
    if !interior_right(pool, st, height, s, least, left) {
        return None;
    }
    let n = slots_raw::raw_count(pool, st, s);
    let mut part = begin(last, left - 1);
    for i in 0..n {
        let row = slots_raw::raw_row(pool, st, s, i);
        let slot = tree_rows::child_of(row);
        let child = check_node(pool, st, height - 1, slot, 1, part.last, part.left)?;
        if !row_right(row, child) {
            return None;
        }
        part = grow(part, row.key, child.totals, child.left);
    }
    if !slots_pool::tail_zero(pool, st, s, n) {
        return None;
    }
    Some(part)
}

// How many rows a root of height `height` has at least.
fn least_root(height: usize) -> usize
    ensures { result ≡ least_root height }
{
    if height == 0 { 0 } else { 2 }
}
