// THE PUBLIC CALLS of the index. Each takes any input, and answers: with what it has done, or with the number of a refusal, and then every
// byte that was lent is as it was. A call on one tree names it by its number straight after the pool. What each answers stands in crate
// index_promise (specs/Promise). The calls that read stand in crates index_look and index_portion, the one that packs in crate
// index_pack.
#![tactic(auto)]

ghost use Rattle.model.specs.Refuse.{called};
ghost use Rattle.index_promise.specs.Promise.{Opens, Batches};

pub use frame_read::read as read_frame;
pub use frame_write::write as write_frame;
use index_known::{Known, store};
pub use index_look::{frame, get, scan, totals};
use index_named::find;
pub use index_pack::pack;
pub use index_portion::portion;
use model::{Batch, Counts, PoolSettings, Refusal};

// Makes the pool two trees, each one empty leaf, whatever it held. Refused as 1 where a setting or the pool's length is wrong.
pub fn open(pool: &mut [u8], given: PoolSettings) -> Result<(), Refusal>
    ensures { Opens given pool.old result pool.new }
{
    if tree::open(pool, given) {
        Ok(())
    } else {
        Err(Refusal::WrongSettings)
    }
}

// One batch on a tree: the ascending keys are taken first to last. Only a SetEach reads places and sizes, one of each a key. Refused as 2, 19 or 3
// to 7.
pub fn batch(pool: &mut [u8], tree: usize, batch: &Batch) -> Result<Counts, Refusal>
    ensures { Batches tree (called batch.now) pool.old result pool.new }
{
    let at = find(pool, tree)?;
    let settings = at.settings;
    let spare = at.spare;
    let known = Known {
        settings,
        height: at.height,
        spare,
    };
    let stored = store(pool, known, batch);
    stored.answer
}
