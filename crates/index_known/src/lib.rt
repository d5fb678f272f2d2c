// A batch on a tree of a pool that is known to be sound. What is known of the tree is handed on from batch to batch, so that a run of batches
// on it tests the pool once.
#![tactic(auto)]

ghost use Rattle.model.specs.Refuse.{call, called};
ghost use Rattle.model.specs.Demands.{Lent};
ghost use Rattle.index_promise.specs.Promise.{Batches};
ghost use Rattle.index_known.specs.Promises.{Knows};

use batch_root::Root;
use index_refuse::{check_batch, operation_fits};
use model::{Batch, Counts, Operation, Refusal, Settings};
use tree_spare::Spare;

// What is known of a tree of a sound pool: its settings, which name it by its root, its height, and the pool's unused slots.
#[derive(Clone, Copy)]
pub struct Known {
    pub settings: Settings,
    pub height: usize,
    pub spare: Spare,
}

// The answer of a batch, and what is known of the tree after it.
#[derive(Clone, Copy)]
pub struct Stored {
    pub answer: Result<Counts, Refusal>,
    pub known: Known,
}

// One batch: the ascending keys are taken first to last. Only a SetEach reads places and sizes, one of each a key. Refused as 3 to 7.
pub fn store(pool: &mut [u8], known: Known, batch: &Batch) -> Stored
    requires { Knows pool.old known }
    ensures promise { Batches known.settings.root (called batch.now) pool.old result.answer pool.new }
    ensures again { Knows pool.new result.known }
{
    let st = known.settings;
    let spare = known.spare;
    if let Err(why) = check_batch(st, known.height, spare.unused, batch) {
        return Stored {
            answer: Err(why),
            known,
        };
    }
    numbers_fit(batch.operation, batch.keys, batch.places, batch.sizes);
    let root = Root {
        height: known.height,
        spare,
    };
    let ran = batch::batch(pool, st, root, batch);
    let counts = ran.counts;
    let root = ran.root;
    let spare = root.spare;
    Stored {
        answer: Ok(counts),
        known: Known {
            settings: st,
            height: root.height,
            spare,
        },
    }
}

// What a batch lends are numbers of their types. Nothing is done here: each is named for what its type then promises.
fn numbers_fit(op: Operation, keys: &[u64], places: &[u64], sizes: &[u32])
    ensures { Lent (call op places.now sizes.now keys.now) }
{
    operation_fits(op);
}
