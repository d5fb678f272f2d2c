// Calls that leave the pool as it is: totals, get, scan, frame. Each finds the tree that it names, or refuses, and then looks.
#![tactic(auto)]

ghost use Rattle.model.specs.Look.{request_for};
ghost use Rattle.index_promise.specs.Promise.{Totalling, Gets, Scans, Frames};

use index_named::find;
use index_refuse::descends;
use look_output::{Listed, Scanned};
use model::{Bound, Direction, Refusal, Request, Sift, Totals};

// Of a tree, the number of live entries, of dead ones, and the sum of the sizes of the live ones. Refused as 2 or 19.
pub fn totals(pool: &[u8], tree: usize) -> Result<Totals, Refusal>
    ensures { Totalling pool.now tree result }
{
    let named = find(pool, tree)?;
    let totals = look::totals(pool, named.settings, named.height);
    Ok(totals)
}

// Writes one entry for each of the ascending keys that is present, dead ones too. Refused as 2, 19 or 5.
pub fn get(pool: &[u8], tree: usize, keys: &[u64], out: &mut [u8]) -> Result<Listed, Refusal>
    ensures { Gets pool.now tree keys.now out.old result out.new }
{
    let at = find(pool, tree)?;
    if descends(keys) {
        return Err(Refusal::KeysDescend);
    }
    let listed = look::get(pool, at.settings, at.height, keys, out);
    Ok(listed)
}

// Writes the live entries in a range whose size the sift lets pass, up or down. Refused as 2 or 19.
pub fn scan(
    pool: &[u8],
    tree: usize,
    start: Bound,
    end: Bound,
    direction: Direction,
    sift: Sift,
    out: &mut [u8],
) -> Result<Scanned, Refusal>
    ensures { Scans pool.now tree (request_for start end direction sift) out.old result out.new }
{
    let at = find(pool, tree)?;
    let q = Request {
        start,
        end,
        direction,
        sift,
    };
    let scanned = look::scan(pool, at.settings, at.height, q, out);
    Ok(scanned)
}

// Writes the i-th node of a tree's preorder walk as a line. Refused as 2, 19, 14 or 16.
pub fn frame(pool: &[u8], tree: usize, i: usize, line: &mut [u8]) -> Result<usize, Refusal>
    ensures { Frames pool.now tree i line.old result line.new }
{
    let at = find(pool, tree)?;
    frame::write_node(pool, at.settings, at.height, i, line)
}
