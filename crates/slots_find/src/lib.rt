// A key among the rows of a node, and the lowest unused slot.
#![tactic(auto)]

ghost use Rattle.std.specs.Prelude.{◌≡◌, ◌≤◌};
ghost use Rattle.words.specs.Words.{words};
ghost use Rattle.slots.specs.Nodes.{Held, nodes, rows_at};
ghost use Rattle.slots.specs.Promises.{ToTouchRows};
ghost use Rattle.slots_find.specs.Search.{key_at};
ghost use Rattle.slots_find.specs.Promises.{ToSearch, Sought, Below, Lowest};

use model::Settings;
use slots::{UNUSED, count, kind, row_at};

// Looks for `key` in node `s`, whose keys ascend: row by row from the front, up to the first key that is not below it. As a slice's `binary_search`
// answers: the row where it stands, or else the row before which it would.
pub fn search(pool: &[u8], st: Settings, s: usize, key: u64) -> Result<usize, usize>
    requires { ToSearch st (words pool.now) s }
    ensures { Sought (rows_at st (words pool.now) s) key result }
{
    let n = count(pool, st, s);
    for i in 0..n {
        let here = key_at(pool, st, s, i);
        if key <= here {
            if key == here {
                return Ok(i);
            }
            return Err(i);
        }
    }
    Err(n)
}

// The key of row `i` of node `s`.
pub fn key_at(pool: &[u8], st: Settings, s: usize, i: usize) -> u64
    requires { ToTouchRows st (words pool.now) s i 1 }
    ensures { result ≡ key_at (rows_at st (words pool.now) s) i }
{
    let row = row_at(pool, st, s, i);
    row.key
}

// The lowest unused slot, or the number of slots where there is none. No slot below `from` is unused, so
// a caller that keeps such a slot is spared a search from slot 0 each time.
pub fn lowest_unused(pool: &[u8], st: Settings, from: usize) -> usize
    requires held { Held st (words pool.now) }
    requires within { from ≤ st.nodes }
    requires below { Below (nodes st (words pool.now)) from }
    ensures { Lowest (nodes st (words pool.now)) result }
{
    let nodes = st.nodes;
    for s in from..nodes {
        if kind(pool, st, s) == UNUSED {
            return s;
        }
    }
    nodes
}
