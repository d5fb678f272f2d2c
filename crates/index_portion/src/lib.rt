// The call that lists in portions: a scan upwards from a start that the caller keeps, and with its answer the start of the next one. A pool
// remembers nothing of a listing, so no batch can spoil it.
#![tactic(auto)]

ghost use Rattle.index_promise.specs.Promise.{Portions};

use look_portion::{Portion, after_scan};
use model::{Bound, Direction, Refusal, Sift};

// Writes the first live entries from `start` to `end` whose size the sift lets pass, as many as fit. Refused as 2 or 19.
pub fn portion(
    pool: &[u8],
    tree: usize,
    start: Bound,
    end: Bound,
    sift: Sift,
    out: &mut [u8],
) -> Result<Portion, Refusal>
    ensures { Portions pool.now tree start end sift out.old result out.new }
{
    let scanned = index_look::scan(pool, tree, start, end, Direction::Up, sift, out)?;
    let shown = after_scan(start, scanned, out);
    Ok(shown)
}
