// A root with one child gives way to it, level by level.
ghost use Rattle.words.specs.Words.{words};
ghost use Rattle.slots.specs.Nodes.{nodes};
ghost use Rattle.tree_spare.specs.Spared.{Spared};
ghost use Rattle.batch_root.specs.Roots.{index_at, collapsed};
ghost use Rattle.batch_root.specs.Promises.{Holding, RootLeft, ToLift, Lifted};

use crate::Root;
use model::Settings;
use tree_spare::{Spare, after_freeing};

// While an interior root has one child, moves that child into the root's slot.
pub fn collapse(pool: &mut [u8], st: Settings, root: Root) -> Root
    requires keeps { Holding st (words pool.old) (index_at st.root (nodes st (words pool.old)) root.height) }
    requires spared { Spared (nodes st (words pool.old)) root.spare }
    ensures { let W = words pool.old in
        let x = index_at st.root (nodes st W) root.height in
        RootLeft st W (words pool.new) x (collapsed x) result }
{
    let mut height = root.height;
    let mut spare = root.spare;
    while height != 0 && slots::count(pool, st, st.root) == 1 {
        height -= 1;
        spare = lift_child(pool, st, height, spare);
    }
    Root { height, spare }
}

// Moves the root's only child, of height `below`, into the root's slot. The answer is what is unused then.
fn lift_child(pool: &mut [u8], st: Settings, below: usize, spare: Spare) -> Spare
    requires { ToLift st (words pool.old) below spare }
    ensures { let W = words pool.old in Lifted st W (words pool.new) below result }
{
    let child = tree_node::child_at(pool, st, st.root, 0);
    let k = tree::kind_for(below);
    slots::remove_row(pool, st, st.root, 0);
    slots::set_kind(pool, st, st.root, k);
    slots_pair::join(pool, st, st.root, child);
    after_freeing(spare, child)
}
