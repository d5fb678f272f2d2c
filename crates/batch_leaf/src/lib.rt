// One leaf takes keys of a batch: the Rust's `modify_leaf`.
//
// What is done under a key is decided first (crate batch_effect), then done (key); the counts follow from the effect. The
// leaf's rows afterwards, the keys left and the counts are those of the model's leaf, for every batch.
#![tactic(auto)]

ghost use Rattle.std.specs.Prelude.{◌≡◌, List, ℕ, ◌+◌, length};
ghost use Rattle.words.specs.Words.{words};
ghost use Rattle.slots.specs.Nodes.{rows_at};
ghost use Rattle.slots.specs.Promises.{ToTouch};
ghost use Rattle.model.specs.Refuse.{called};
ghost use Rattle.batch_leaf.specs.Promises.{ToTakeKey, ToWish, Underway, KeysTaken};
ghost use Rattle.batch_leaf.specs.Keys.{wish_at, goes_on};

mod key; // one key in a leaf

use batch_effect::{altered, counted, is_due};
use key::change_key;
use model::{Action, Batch, Counts, Operation, Reference, Settings, Wish};
use tree_spare::Spare;

// How far a batch has come: the next key, the counts so far, and the unused slots. It is handed down the tree and back.
#[derive(Clone, Copy)]
pub struct Run {
    pub next: usize,
    pub counts: Counts,
    pub spare: Spare,
}

// A node that keys are taken by, its height, its slot, and the greatest key that it may take.
#[derive(Clone, Copy)]
pub struct Subtree {
    pub height: usize,
    pub slot: usize,
    pub ceiling: u64,
}

// How far a batch has come after a leaf, and whether the leaf changed.
#[derive(Clone, Copy)]
pub struct Progress {
    pub run: Run,
    pub changed: bool,
}

// A leaf takes keys, from the next one on: the Rust's `modify_leaf`. It takes them until its length exceeds the larger of its length at
// first and order; that is order, since no leaf comes with more.
pub fn take_keys(pool: &mut [u8], st: Settings, leaf: Subtree, batch: &Batch, run: Run) -> Progress
    requires { ToTakeKey st (words pool.old) leaf.slot × Underway (called batch.now) run }
    ensures { (us : List ℕ) → KeysTaken st (words pool.old) (words pool.new) leaf (called batch.now) run us result }
{
    let mut now = run;
    let mut changed = false;
    while takes(pool, st, leaf.slot, batch.keys, now.next, leaf.ceiling) {
        let next = now.next;
        let key = batch.keys[next];
        let wish = wish_at(batch, next);
        let effect = change_key(pool, st, leaf.slot, key, wish);
        changed = altered(changed, effect);
        now.counts = counted(now.counts, effect);
        now.next = next + 1;
    }
    Progress { run: now, changed }
}

// Whether leaf `s` takes key `next`.
fn takes(pool: &[u8], st: Settings, s: usize, keys: &[u64], next: usize, ceiling: u64) -> bool
    requires { ToTouch st (words pool.now) s }
    ensures { result ≡ goes_on keys.now next ceiling (length (rows_at st (words pool.now) s)) st.order }
{
    if is_due(keys, next, ceiling) {
        let n = slots::count(pool, st, s);
        return n <= st.order;
    }
    false
}

// What the operation wishes of key `i`: a SetEach has a reference for each key.
fn wish_at(batch: &Batch, i: usize) -> Wish
    requires { let b = called batch.now in ToWish b.operation b.places b.sizes (i + 1) }
    ensures { let b = called batch.now in result ≡ wish_at b.operation b.places b.sizes i }
{
    match batch.operation {
        Operation::Set(r) => Wish::Always(Action::Set(r)),
        Operation::SetEach => {
            let place = batch.places[i];
            let size = batch.sizes[i];
            Wish::Always(Action::Set(Reference { place, size }))
        }
        Operation::Remove => Wish::Always(Action::Remove),
        Operation::Compare(e, a) => Wish::IfMet(e, a),
    }
}
