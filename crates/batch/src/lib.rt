// One batch on the index in a pool: the root takes keys until none is left, and is split, emptied or collapsed.
//
// The root stays in its slot: a split root's halves take new slots, and a lone child moves into the root's. The index
// afterwards and the counts are those of the model's `batch`.
#![tactic(auto)]

ghost use Rattle.words.specs.Words.{words};
ghost use Rattle.model.specs.Refuse.{called};
ghost use Rattle.batch_root.specs.Promises.{ToSettleRoot, RootSettled};
ghost use Rattle.batch.specs.Promises.{ToBatch, Changed};

use batch_leaf::{Run, Subtree};
use batch_node::node_change;
use batch_root::{Root, collapse, split_root};
use model::{Batch, ChangeResult, Counts, Settings};
use slots::LEAF;

// What a batch has done, and what is left: the counts, and the root.
#[derive(Clone, Copy)]
pub struct Ran {
    pub counts: Counts,
    pub root: Root,
}

// The keys of a batch that is not refused, taken one after the other by a sound index with this root. A leaf root may leave keys, and so
// may one that was emptied: then the root is called again.
pub fn batch(pool: &mut [u8], st: Settings, root: Root, batch: &Batch) -> Ran
    requires { ToBatch st (words pool.old) root (called batch.now) }
    ensures { let b = called batch.now in
        Changed st (words pool.old) (words pool.new) root.height b result }
{
    let mut height = root.height;
    let spare = root.spare;
    let counts = model_code::no_counts();
    let mut run = Run {
        next: 0,
        counts,
        spare,
    };
    while run.next < batch.keys.len() {
        // the root has no ceiling
        let node = Subtree {
            height,
            slot: st.root,
            ceiling: u64::MAX,
        };
        let r = node_change(pool, st, node, batch, run);
        let result = r.result;
        let came = r.run;
        let counts = came.counts;
        let spare = came.spare;
        let left = settle_root(pool, st, Root { height, spare }, result);
        let spare = left.spare;
        height = left.height;
        run = Run {
            next: came.next,
            counts,
            spare,
        };
    }
    let counts = run.counts;
    let spare = run.spare;
    let root = collapse(pool, st, Root { height, spare });
    Ran { counts, root }
}

// What becomes of the root after a call: an over-full one is split, an empty one is a leaf again, and one below the
// minimum stays, since it has no sibling.
fn settle_root(pool: &mut [u8], st: Settings, root: Root, v: ChangeResult) -> Root
    requires { ToSettleRoot st (words pool.old) root v }
    ensures { RootSettled st (words pool.old) (words pool.new) root.height v result }
{
    match v {
        ChangeResult::Split => {
            let spare = root.spare;
            let spare = split_root(pool, st, root.height, spare);
            return Root {
                height: root.height + 1,
                spare,
            };
        }
        ChangeResult::Remove => {
            slots::set_kind(pool, st, st.root, LEAF);
            let spare = root.spare;
            return Root { height: 0, spare };
        }
        ChangeResult::Unchanged => {
            return root;
        }
        ChangeResult::Absorb => {
            return root;
        }
        ChangeResult::Changed => {
            return root;
        }
    }
}
