// The desk's pool: opened, and its tree 0 changed by a batch whose answer is told as text.
#![tactic(auto)]

ghost use Rattle.std.specs.Prelude.{◌≡◌};
ghost use Rattle.model.specs.Refuse.{called};
ghost use Rattle.desk_promise.specs.Promise.{opened, Changes};

use desk_promise::TREE;
use model::{Batch, Limits, PoolSettings};

// Makes the desk's pool two empty leaves, whatever it held: 16 nodes, and order 4 and minimum 2 of either tree.
pub fn open(pool: &mut [u8; 3392])
    ensures { pool.new ≡ opened }
{
    let tree = Limits {
        order: 4,
        minimum: 2,
    };
    let desk = PoolSettings {
        nodes: 16,
        first: tree,
        second: tree,
    };
    // settings in limits, and the pool has just their length
    index::open(pool, desk).unwrap();
}

// One batch on it, and its answer as text in the first bytes of `text`; tells the length of that.
pub fn change(pool: &mut [u8; 3392], batch: &Batch, text: &mut [u8; 4096]) -> usize
    ensures { Changes (called batch.now)
        pool.old text.old (record { count = result; pool = pool.new; text = text.new }) }
{
    match index::batch(pool, TREE, batch) {
        Ok(counts) => desk_text::say_done(text, counts),
        Err(why) => desk_text::say_refused(text, why),
    }
}
