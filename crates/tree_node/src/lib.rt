// A node of a tree in the pool, asked: what its rows add up to, the row by which it stands in its parent, the child in a row, and the child
// that a key goes to. Each question has this one home; the crates of reading and of a batch ask here.
#![tactic(auto)]

ghost use Rattle.std.specs.Prelude.{◌≡◌, ◌<◌, length, get_or};
ghost use Rattle.words.specs.Words.{words};
ghost use Rattle.slots_raw.specs.Slots.{blank};
ghost use Rattle.slots.specs.Nodes.{rows_at};
ghost use Rattle.slots.specs.Promises.{ToTouch, ToTouchRows};
ghost use Rattle.tree.specs.Bridge.{child_of};
ghost use Rattle.tree.specs.Sums.{sum_rows};
ghost use Rattle.tree.specs.Promises.{ToWeigh};
ghost use Rattle.tree_node.specs.Ask.{last_key, row_over, Chosen};

use model::{Settings, Totals};
use model_code::no_totals;
use slots_raw::Row;
use tree_rows::{child_of, child_row, plus_totals, row_totals};

// The totals of the node of height `height` in slot `s`, from its rows alone (the Rust's `stats`).
pub fn stats(pool: &[u8], st: Settings, height: usize, s: usize) -> Totals
    requires { ToWeigh st (words pool.now) height s }
    ensures { result ≡ sum_rows height (rows_at st (words pool.now) s) }
{
    let n = slots::count(pool, st, s);
    let mut t = no_totals();
    for i in 0..n {
        let row = slots::row_at(pool, st, s, i);
        let more = row_totals(height, row);
        t = plus_totals(t, more);
    }
    t
}

// The row of the node of height `height` in slot `s`. The greatest key is that of its last row. (The Rust's `max_key` and `stats`.)
pub fn weigh(pool: &[u8], st: Settings, height: usize, s: usize) -> Row
    requires { ToWeigh st (words pool.now) height s }
    ensures { result ≡ row_over height s (rows_at st (words pool.now) s) }
{
    let key = last_key(pool, st, s);
    let totals = stats(pool, st, height, s);
    child_row(key, s, totals)
}

// The key of the last row of node `s`, or 0 where it has none: `row_over` says 0 of a node without rows, so an Option would be taken apart again.
fn last_key(pool: &[u8], st: Settings, s: usize) -> u64
    requires { ToTouch st (words pool.now) s }
    ensures { result ≡ last_key (rows_at st (words pool.now) s) }
{
    let n = slots::count(pool, st, s);
    if n == 0 {
        return 0;
    }
    slots_find::key_at(pool, st, s, n - 1)
}

// The slot that row `i` of node `s` names.
pub fn child_at(pool: &[u8], st: Settings, s: usize, i: usize) -> usize
    requires { ToTouchRows st (words pool.now) s i 1 }
    ensures { result ≡ child_of (get_or (rows_at st (words pool.now) s) i blank) }
{
    let row = slots::row_at(pool, st, s, i);
    child_of(row)
}

// The child of node `s`, from child `from` on, that `key` goes to: the first whose separator is not below it, or the last.
pub fn child_for(pool: &[u8], st: Settings, s: usize, from: usize, key: u64) -> usize
    requires { ToTouch st (words pool.now) s × (from < length (rows_at st (words pool.now) s)) }
    ensures { Chosen (rows_at st (words pool.now) s) from key result }
{
    let n = slots::count(pool, st, s);
    for i in from..n - 1 {
        let separator = slots_find::key_at(pool, st, s, i);
        if key <= separator {
            return i;
        }
    }
    n - 1
}
