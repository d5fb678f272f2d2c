// A child below the minimum is joined with a sibling, and an empty one is taken out.
#![tactic(auto)]

ghost use Rattle.std.specs.Prelude.{◌≡◌, ◌∷◌, ◌++◌, ◌+◌, ◌-◌, ◌≤◌};
ghost use Rattle.words.specs.Words.{words};
ghost use Rattle.slots.specs.Nodes.{nodes};
ghost use Rattle.slots.specs.Promises.{NodesPut};
ghost use Rattle.model.specs.Tree.{len, refill, release};
ghost use Rattle.model.specs.Share.{half, cut_at, join, followed};
ghost use Rattle.model.specs.declared.ChangeResult.TheVariants.{Absorb, Remove};
ghost use Rattle.model.specs.Promises.{Says};
ghost use Rattle.tree.specs.Bridge.{unused_of};
ghost use Rattle.tree_spare.specs.Spared.{Spared};
ghost use Rattle.batch_share.specs.Promises.{ChildSettled, ToStep, Neighbours, Parted, Rowed, ToLevel};
ghost use Rattle.batch_share.specs.Children.{child_at, after_at, level_nodes};

use batch_share::renew::{child_len, renew, renew_two};
use batch_share::{Child, Standing};
use model::Settings;
use model_code::half;
use tree_node::child_at;
use tree_spare::{Spare, after_freeing};

// Joins a child with the previous sibling, or with the next if it is the first. The walk goes on from the two. (The Rust's
// `process_absorb`.)
pub fn absorb(pool: &mut [u8], st: Settings, at: Child, spare: Spare) -> Standing
    requires steps { ToStep st (words pool.old) at.height at.parent at.row spare 0 }
    requires says { Says st Absorb (child_at (nodes st (words pool.old)) at.height at.parent at.row) }
    ensures { ChildSettled st (words pool.old) (words pool.new) at.height at.parent at.row Absorb result }
{
    if slots::count(pool, st, at.parent) == 1 {
        return Standing { at: at.row, spare };
    }
    let lower = Child {
        row: one_back(at.row),
        ..at
    };
    let spare = join_children(pool, st, lower, spare);
    Standing {
        at: lower.row,
        spare,
    }
}

// Joins a child and the next one: in one node if they fit, else the half of their rows in each. (The Rust's `absorb`.)
fn join_children(pool: &mut [u8], st: Settings, at: Child, spare: Spare) -> Spare
    requires neighbours { Neighbours st (words pool.old) at.height at.parent at.row }
    requires lower { len (child_at (nodes st (words pool.old)) at.height at.parent at.row) ≤ st.order }
    requires upper { len (child_at (nodes st (words pool.old)) at.height at.parent (at.row + 1)) ≤ st.order }
    requires spared { Spared (nodes st (words pool.old)) spare }
    ensures { let W = words pool.old in
        let ns = nodes st W in
        Rowed st W (words pool.new) at.height at.parent at.row result (followed
        (join st (child_at ns at.height at.parent at.row) (child_at ns at.height at.parent (at.row + 1)) (unused_of ns)) (after_at ns at.height at.parent (at.row + 1))) }
{
    let next = Child {
        row: at.row + 1,
        ..at
    };
    if child_len(pool, st, at) + child_len(pool, st, next) <= st.order {
        return merge(pool, st, at, spare);
    }
    even_out(pool, st, at);
    spare
}

// The rows of the next child go to the end of this one, and its slot is unused from now on.
fn merge(pool: &mut [u8], st: Settings, at: Child, spare: Spare) -> Spare
    requires neighbours { Neighbours st (words pool.old) at.height at.parent at.row }
    requires fits { len (child_at (nodes st (words pool.old)) at.height at.parent at.row) + len (child_at (nodes st (words pool.old)) at.height at.parent (at.row + 1)) ≤
        st.order }
    requires spared { Spared (nodes st (words pool.old)) spare }
    ensures { let W = words pool.old in
        let ns = nodes st W in
        let p = child_at ns at.height at.parent at.row in
        let c = child_at ns at.height at.parent (at.row + 1) in
        Rowed st W (words pool.new) at.height at.parent at.row result (record
        { nodes = refill p (p.items ++ c.items) ∷ after_at ns at.height at.parent (at.row + 1); unused = release c.slot (unused_of ns) }) }
{
    let p = child_at(pool, st, at.parent, at.row);
    let c = child_at(pool, st, at.parent, at.row + 1);
    slots_pair::join(pool, st, p, c);
    slots::remove_row(pool, st, at.parent, at.row + 1);
    renew(pool, st, at, p);
    after_freeing(spare, c)
}

// A child and the next one share their rows, the lower half of them in this one.
fn even_out(pool: &mut [u8], st: Settings, at: Child)
    requires neighbours { Neighbours st (words pool.old) at.height at.parent at.row }
    requires lower { len (child_at (nodes st (words pool.old)) at.height at.parent at.row) ≤ st.order }
    requires upper { len (child_at (nodes st (words pool.old)) at.height at.parent (at.row + 1)) ≤ st.order }
    ensures { let W = words pool.old in
        let ns = nodes st W in
        let p = child_at ns at.height at.parent at.row in
        let c = child_at ns at.height at.parent (at.row + 1) in
        let both = refill p (p.items ++ c.items) in
        Parted st W (words pool.new) at.height at.parent at.row (cut_at (half (len both)) both c.slot) }
{
    let p = child_at(pool, st, at.parent, at.row);
    let c = child_at(pool, st, at.parent, at.row + 1);
    level(pool, st, p, c);
    renew_two(pool, st, at, p, c);
}

// Rows go from the longer of the nodes `p` and `c` to the other, until the lower half of them is in `p`.
fn level(pool: &mut [u8], st: Settings, p: usize, c: usize)
    requires { ToLevel st (words pool.old) p c }
    ensures { let W = words pool.old in NodesPut st W (words pool.new) (level_nodes (nodes st W) p c) }
{
    let m = slots::count(pool, st, p);
    let n = slots::count(pool, st, c);
    let keep = half(m + n);
    if m < keep {
        slots_pair::share_back(pool, st, p, c, keep - m);
        return;
    }
    slots_pair::share_forward(pool, st, p, c, m - keep);
}

// Takes a child that is empty out of its parent. The walk steps back.
pub fn take_out(pool: &mut [u8], st: Settings, at: Child, spare: Spare) -> Standing
    requires steps { ToStep st (words pool.old) at.height at.parent at.row spare 0 }
    requires says { Says st Remove (child_at (nodes st (words pool.old)) at.height at.parent at.row) }
    ensures { ChildSettled st (words pool.old) (words pool.new) at.height at.parent at.row Remove result }
{
    let c = child_at(pool, st, at.parent, at.row);
    slots::release(pool, st, c);
    slots::remove_row(pool, st, at.parent, at.row);
    Standing {
        at: one_back(at.row),
        spare: after_freeing(spare, c),
    }
}

// The child before child `i`, if there is one.
fn one_back(i: usize) -> usize
    ensures { result ≡ i - 1 }
{
    if i == 0 { 0 } else { i - 1 }
}
