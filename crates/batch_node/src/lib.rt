// One batch on the tree in a pool: node change calls interior change, which calls node change one level lower.
//
// A leaf takes keys (crate batch_leaf); an interior node walks among its children, and settles each changed one
// (crate batch_settle). The nodes afterwards, the keys left and the counts are those of the model's `change`.
#![tactic(auto)]

ghost use Rattle.std.specs.Prelude.{suc, ◌-◌, ◌<◌};
ghost use Rattle.words.specs.Words.{words};
ghost use Rattle.model.specs.Refuse.{called};
ghost use Rattle.batch_node.specs.Promises.{ToChange, NodeChanged};

use batch_leaf::{Run, Subtree};
use batch_seek::{ceiling_for, changed_by, result_of, roams_on};
use batch_share::Child;
use model::{Batch, ChangeResult, Settings};
use tree_node::child_for;

// How far a batch has come, and what became of the node.
#[derive(Clone, Copy)]
pub struct Reply {
    pub run: Run,
    pub result: ChangeResult,
}

// A node of any height takes keys, from the next one on. (The Rust's `modify`.)
#[cycle(interior_change_node_change)]
pub fn node_change(pool: &mut [u8], st: Settings, node: Subtree, batch: &Batch, run: Run) -> Reply
    requires { ToChange st (words pool.old) node.height node (called batch.now) run }
    ensures { let b = called batch.now in
        NodeChanged st (words pool.old) (words pool.new) node.height node b run result }
{
    if node.height == 0 {
        return leaf_change(pool, st, node, batch, run);
    }
    interior_change(pool, st, node, batch, run)
}

// An interior node takes keys: each goes to a child, whose result is settled before the walk goes on. (The Rust's `modify_interior`.)
#[cycle(interior_change_node_change)]
fn interior_change(pool: &mut [u8], st: Settings, node: Subtree, batch: &Batch, run: Run) -> Reply
    requires interior { 0 < node.height }
    requires asked { ToChange st (words pool.old) (suc (node.height - 1)) node (called batch.now) run }
    ensures { let b = called batch.now in
        NodeChanged st (words pool.old) (words pool.new) (suc (node.height - 1)) node b run result }
{
    let below = node.height - 1;
    let mut i = 0;
    let mut changed = false;
    let mut now = run;
    'roaming: while roams_on(pool, st, node.slot, batch.keys, now.next, node.ceiling, i) {
        let next = now.next;
        let key = batch.keys[next];
        let j = child_for(pool, st, node.slot, i, key);
        let row = slots::row_at(pool, st, node.slot, j);
        let child = Subtree {
            height: below,
            slot: tree_rows::child_of(row),
            ceiling: ceiling_for(row.key, key, node.ceiling),
        };
        let r = node_change(pool, st, child, batch, now);
        let v = r.result;
        let came = r.run;
        let counts = came.counts;
        let spare = came.spare;
        let at = Child {
            height: below,
            parent: node.slot,
            row: j,
        };
        let to = batch_settle::settle_child(pool, st, at, v, spare);
        let spare = to.spare;
        // the settled child may stand before this one: the next key is looked for from there on
        i = to.at;
        changed = changed_by(changed, v);
        now = Run {
            next: came.next,
            counts,
            spare,
        };
    }
    let n = slots::count(pool, st, node.slot);
    let result = result_of(st, changed, n);
    Reply { run: now, result }
}

// A leaf takes keys. (What is left of the Rust's `modify_leaf` beside its loop.)
fn leaf_change(pool: &mut [u8], st: Settings, leaf: Subtree, batch: &Batch, run: Run) -> Reply
    requires { ToChange st (words pool.old) 0 leaf (called batch.now) run }
    ensures { let b = called batch.now in
        NodeChanged st (words pool.old) (words pool.new) 0 leaf b run result }
{
    let r = batch_leaf::take_keys(pool, st, leaf, batch, run);
    let n = slots::count(pool, st, leaf.slot);
    let result = result_of(st, r.changed, n);
    let run = r.run;
    Reply { run, result }
}
