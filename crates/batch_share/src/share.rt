// A child that is over-full hands rows to its previous sibling, then to the next, and is split where it still does not fit.
ghost use Rattle.std.specs.Prelude.{◌≡◌, ◌∷◌, ◌+◌, ◌≤◌};
ghost use Rattle.words.specs.Words.{words};
ghost use Rattle.slots.specs.Nodes.{nodes};
ghost use Rattle.model.specs.Tree.{len, lowest, others};
ghost use Rattle.model.specs.Share.{half, cut_at, share_back, share_on, split_over, share_next, followed};
ghost use Rattle.model.specs.declared.ChangeResult.TheVariants.{Split};
ghost use Rattle.model.specs.Promises.{Says};
ghost use Rattle.tree.specs.Bridge.{unused_of};
ghost use Rattle.batch_share.specs.Promises.{ChildSettled, ToFocus, ToStep, Neighbours, Parted, Rowed, ToHand};
ghost use Rattle.batch_share.specs.Children.{child_at, before_at, after_at, handed_rows, room_in};

use crate::renew::{child_len, renew, renew_two};
use crate::{Child, Standing};
use model::Settings;
use model_code::half;
use tree_node::{child_at, weigh};
use tree_spare::{Spare, after_taking};

// Shares a child out, first with the previous sibling, and then the walk steps back. (The Rust's `process_interior_split`.)
pub fn share_out(pool: &mut [u8], st: Settings, at: Child, spare: Spare) -> Standing
    requires steps { ToStep st (words pool.old) at.height at.parent at.row spare 1 }
    requires says { Says st Split (child_at (nodes st (words pool.old)) at.height at.parent at.row) }
    ensures { ChildSettled st (words pool.old) (words pool.new) at.height at.parent at.row Split result }
{
    if room_before(pool, st, at) {
        let previous = Child {
            row: at.row - 1,
            ..at
        };
        give_back(pool, st, previous);
        let spare = share_next(pool, st, at, spare);
        return Standing {
            at: at.row - 1,
            spare,
        };
    }
    let spare = share_next(pool, st, at, spare);
    Standing { at: at.row, spare }
}

// Whether a child has a previous sibling with room.
fn room_before(pool: &[u8], st: Settings, at: Child) -> bool
    requires { ToFocus st (words pool.now) at.height at.parent at.row }
    ensures { result ≡ room_in st (before_at (nodes st (words pool.now)) at.height at.parent at.row) }
{
    if at.row == 0 {
        return false;
    }
    let previous = Child {
        row: at.row - 1,
        ..at
    };
    child_len(pool, st, previous) < st.order
}

// Shares a child with the next sibling and splits it, as long as it does not fit. The answer is what is unused then.
fn share_next(pool: &mut [u8], st: Settings, at: Child, spare: Spare) -> Spare
    requires { ToStep st (words pool.old) at.height at.parent at.row spare 1 }
    ensures { let W = words pool.old in
        let ns = nodes st W in
        Rowed st W (words pool.new) at.height at.parent at.row result (share_next st (child_at ns at.height at.parent at.row) (after_at ns at.height at.parent at.row) (unused_of ns)) }
{
    let n = slots::count(pool, st, at.parent);
    if at.row + 1 == n {
        return split_over(pool, st, at, spare);
    }
    if child_len(pool, st, at) <= st.order {
        return spare;
    }
    give_on(pool, st, at);
    split_over(pool, st, at, spare)
}

// Splits a child if it does not fit.
fn split_over(pool: &mut [u8], st: Settings, at: Child, spare: Spare) -> Spare
    requires { ToStep st (words pool.old) at.height at.parent at.row spare 1 }
    ensures { let W = words pool.old in
        let ns = nodes st W in
        Rowed st W (words pool.new) at.height at.parent at.row result (followed (split_over st (child_at ns at.height at.parent at.row) (unused_of ns))
        (after_at ns at.height at.parent at.row)) }
{
    if child_len(pool, st, at) <= st.order {
        return spare;
    }
    split_child(pool, st, at, spare)
}

// A child keeps the half of its rows, the others go to the lowest unused slot, and the next one is looked for.
fn split_child(pool: &mut [u8], st: Settings, at: Child, spare: Spare) -> Spare
    requires { ToStep st (words pool.old) at.height at.parent at.row spare 1 }
    ensures { let W = words pool.old in
        let ns = nodes st W in
        let us = unused_of ns in
        let c = child_at ns at.height at.parent at.row in
        let two = cut_at (half (len c)) c (lowest us) in
        Rowed st W (words pool.new) at.height at.parent at.row result (record
        { nodes = two.lower ∷ two.upper ∷ after_at ns at.height at.parent at.row; unused = others us }) }
{
    let c = child_at(pool, st, at.parent, at.row);
    let n = slots::count(pool, st, c);
    let keep = half(n);
    slots_pair::split(pool, st, c, spare.low, keep);
    let row = weigh(pool, st, at.height, spare.low);
    slots::insert_row(pool, st, at.parent, at.row + 1, row);
    renew(pool, st, at, c);
    after_taking(pool, st, spare)
}

// The next child hands its first rows to this one. (The Rust's `steal_children_from_start`.)
fn give_back(pool: &mut [u8], st: Settings, at: Child)
    requires neighbours { Neighbours st (words pool.old) at.height at.parent at.row }
    requires lower { len (child_at (nodes st (words pool.old)) at.height at.parent at.row) ≤ st.order }
    requires upper { st.minimum ≤ len (child_at (nodes st (words pool.old)) at.height at.parent (at.row + 1)) }
    ensures { let W = words pool.old in
        let ns = nodes st W in
        Parted st W (words pool.new) at.height at.parent at.row (share_back st (child_at ns at.height at.parent at.row) (child_at ns at.height at.parent (at.row + 1))) }
{
    let p = child_at(pool, st, at.parent, at.row);
    let c = child_at(pool, st, at.parent, at.row + 1);
    let a = handed(pool, st, c, p);
    slots_pair::share_back(pool, st, p, c, a);
    renew_two(pool, st, at, p, c);
}

// A child hands its last rows to the next one. (The Rust's `steal_children_from_end`.)
fn give_on(pool: &mut [u8], st: Settings, at: Child)
    requires neighbours { Neighbours st (words pool.old) at.height at.parent at.row }
    requires lower { st.minimum ≤ len (child_at (nodes st (words pool.old)) at.height at.parent at.row) }
    requires upper { len (child_at (nodes st (words pool.old)) at.height at.parent (at.row + 1)) ≤ st.order }
    ensures { let W = words pool.old in
        let ns = nodes st W in
        Parted st W (words pool.new) at.height at.parent at.row (share_on st (child_at ns at.height at.parent at.row) (child_at ns at.height at.parent (at.row + 1))) }
{
    let c = child_at(pool, st, at.parent, at.row);
    let n = child_at(pool, st, at.parent, at.row + 1);
    let a = handed(pool, st, c, n);
    slots_pair::share_forward(pool, st, c, n, a);
    renew_two(pool, st, at, c, n);
}

// How many rows node `c` hands to node `t`: the smaller of the free space of `t` and what `c` has above the minimum.
fn handed(pool: &[u8], st: Settings, c: usize, t: usize) -> usize
    requires { ToHand st (words pool.now) c t }
    ensures { result ≡ handed_rows st (words pool.now) c t }
{
    let free = st.order - slots::count(pool, st, t);
    let spare = slots::count(pool, st, c) - st.minimum;
    free.min(spare)
}
