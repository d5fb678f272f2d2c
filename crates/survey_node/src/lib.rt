// One node of a pool that has the right length, tested by itself: its head, its rows, and the zeros past them. A leaf is tested whole; of an interior
// it is told whether it may be gone down from, and of each row whether it says of its child what the walk found there.
#![tactic(auto)]

ghost use Rattle.std.specs.Prelude.{◌≡◌, ◌<◌, ◌≤◌, length};
ghost use Rattle.words.specs.Words.{words};
ghost use Rattle.slots_raw.specs.Promises.{Shape};
ghost use Rattle.slots.specs.Nodes.{nodes, rows_at};
ghost use Rattle.model.specs.Answer.{Tells};
ghost use Rattle.tree.specs.Promises.{ToAdd};
ghost use Rattle.survey_node.specs.Parts.{begun, grown};
ghost use Rattle.survey_node.specs.Promises.{There, EachThere, Head, Opened, Checked, EntryRight, RowRight};

use model::{Settings, Totals};
use slots_raw::Row;

// What the walk has found when it comes back from a node that is right: the last key that it met, if it met one, the totals of the
// node's tree, and how many nodes it may still open. At a fault there is none.
#[derive(Clone, Copy)]
pub struct Part {
    pub last: Option<u64>,
    pub totals: Totals,
    pub left: usize,
}

// Tests the leaf in slot `s`, which has `least` rows or more, where the walk may open `left` nodes. Its keys must all be above `last`, the last one
// met, if one was met. It stays a function by itself: within the walk that calls it, its loop would carry what it answers at a fault from turn to turn.
#[inline(never)]
pub fn check_leaf(
    pool: &[u8],
    st: Settings,
    s: usize,
    least: usize,
    last: Option<u64>,
    left: usize,
) -> Option<Part>
    requires shape { Shape st (words pool.now) }
    requires there { There st (words pool.now) 0 s }
    ensures { Checked st (words pool.now) 0 s least last left result }
{
    if !head_right(pool, st, 0, s, least, left) {
        return None;
    }
    let entries = slots_raw::raw_count(pool, st, s);
    let mut part = begin(last, left - 1);
    for i in 0..entries {
        let row = slots_raw::raw_row(pool, st, s, i);
        if !entry_right(row, part.last) {
            return None;
        }
        part = grow(part, row.key, tree_rows::entry_totals(row), part.left);
    }
    if !slots_pool::tail_zero(pool, st, s, entries) {
        return None;
    }
    Some(part)
}

// Whether the interior in slot `s` may be gone down from: its head is right, and each of its rows names a node one level below.
pub fn interior_right(
    pool: &[u8],
    st: Settings,
    height: usize,
    s: usize,
    least: usize,
    left: usize,
) -> bool
    requires shape { Shape st (words pool.now) }
    requires there { There st (words pool.now) height s }
    requires interior { 0 < height }
    ensures { Tells result (Opened st (words pool.now) height s least left) }
{
    head_right(pool, st, height, s, least, left) && children_there(pool, st, height - 1, s)
}

// Whether each row of slot `s`, which are at most order, names a slot with a node of height `height`.
fn children_there(pool: &[u8], st: Settings, height: usize, s: usize) -> bool
    requires there { Shape st (words pool.now) × (s < st.nodes) }
    requires few { length (rows_at st (words pool.now) s) ≤ st.order }
    ensures { Tells result (EachThere st (words pool.now) height (rows_at st (words pool.now) s)) }
{
    let n = slots_raw::raw_count(pool, st, s);
    for i in 0..n {
        let row = slots_raw::raw_row(pool, st, s, i);
        if !there(pool, st, height, tree_rows::child_of(row)) {
            return false;
        }
    }
    true
}

// Whether slot `s` is there, with a node of height `height`.
pub fn there(pool: &[u8], st: Settings, height: usize, s: usize) -> bool
    requires { Shape st (words pool.now) }
    ensures { Tells result (There st (words pool.now) height s) }
{
    s < st.nodes && slots_raw::raw_kind(pool, st, s) == tree::kind_for(height)
}

// Whether the node in slot `s` has `least` to order rows, and the walk may open it.
fn head_right(pool: &[u8], st: Settings, height: usize, s: usize, least: usize, left: usize) -> bool
    requires shape { Shape st (words pool.now) }
    requires there { There st (words pool.now) height s }
    ensures { Tells result (Head st (words pool.now) height s least left) }
{
    if left == 0 {
        return false;
    }
    let n = slots_raw::raw_count(pool, st, s);
    least <= n && n <= st.order
}

// Whether a leaf's row is an entry whose key is above `last`, if a key was met. A size is of 4 bytes, though its word has 8.
fn entry_right(row: Row, last: Option<u64>) -> bool
    ensures { Tells result (EntryRight last row) }
{
    if 0x1_0000_0000 <= row.size {
        return false;
    }
    match last {
        Some(key) => key < row.key,
        None => true,
    }
}

// Whether an interior's row says of its child what the walk found.
pub fn row_right(row: Row, child: Part) -> bool
    ensures { Tells result (RowRight row child) }
{
    child.last == Some(row.key) && tree_rows::child_totals(row) == child.totals
}

// A walk at the start of a node's rows.
pub fn begin(last: Option<u64>, left: usize) -> Part
    ensures { result ≡ begun last left }
{
    Part {
        last,
        totals: model_code::no_totals(),
        left,
    }
}

// What it has found after another row, whose key and totals are given.
pub fn grow(part: Part, key: u64, t: Totals, left: usize) -> Part
    requires { ToAdd part.totals t }
    ensures { result ≡ grown part.totals key t left }
{
    Part {
        last: Some(key),
        totals: tree_rows::plus_totals(part.totals, t),
        left,
    }
}
