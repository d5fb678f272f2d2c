// Slots as they are stored, read. Nothing here asks that a slot makes sense: a count may be any number, and
// the rows past it any rows. So these functions read pools that are not known to be in order, and the
// functions on nodes are made of them. Slots are written by crate slots_write.
#![tactic(auto)]

ghost use Rattle.std.specs.Prelude.{◌≡◌, ◌≤◌, ◌<◌, get_or};
ghost use Rattle.words.specs.Words.{words};
ghost use Rattle.slots_raw.specs.Slots as Slots;
ghost use Rattle.slots_raw.specs.Promises.{Shape, ToTouchCells, Based};
ghost use Rattle.slots_raw.specs.Slots.{raw_at, blank};

use model::Settings;

// How many words the header has, the head of a slot (its kind and its count), and a row.
pub const HEADER: usize = 8;

pub const HEAD: usize = 2;

pub const ROW: usize = 3;

// Three words. In a leaf a key, its place and its size; in an interior node a separator, a child with
// its counts, and a sum of sizes.
#[derive(Clone, Copy)]
pub struct Row {
    pub key: u64,
    pub body: u64,
    pub size: u64,
}

// The kind of slot `s`.
pub fn raw_kind(pool: &[u8], st: Settings, s: usize) -> u64
    requires { Shape st (words pool.now) × (s < st.nodes) }
    ensures { result ≡ (raw_at st (words pool.now) s).kind }
{
    let b = base(pool, st, s);
    let stored = words::get(pool, b);
    seen(st.root, stored)
}

// A kind as the tree with its root in slot `root` sees it: its own nodes are of kinds 1 and 2, and those of a tree with another root of 3 and 4.
// What was seen so is turned back in the same way.
pub fn seen(root: usize, kind: u64) -> u64
    ensures { result ≡ Slots.seen root kind }
{
    if root == 0 {
        return kind;
    }
    if kind == 0 {
        return kind;
    }
    if kind < 3 {
        return kind + 2;
    }
    if kind < 5 { kind - 2 } else { kind }
}

// How many rows slot `s` says it holds.
pub fn raw_count(pool: &[u8], st: Settings, s: usize) -> usize
    requires { Shape st (words pool.now) × (s < st.nodes) }
    ensures { result ≡ (raw_at st (words pool.now) s).count }
{
    let b = base(pool, st, s);
    words::get(pool, b + 1) as usize
}

// Row `i` of slot `s`.
pub fn raw_row(pool: &[u8], st: Settings, s: usize, i: usize) -> Row
    requires { ToTouchCells st (words pool.now) s i 1 }
    ensures { result ≡ get_or (raw_at st (words pool.now) s).cells i blank }
{
    let p = base(pool, st, s) + (HEAD + i * ROW);
    let key = words::get(pool, p);
    let body = words::get(pool, p + 1);
    let size = words::get(pool, p + 2);
    Row { key, body, size }
}

// The word at which slot `s` starts. It is a function so that its contract says once, for all that read or
// write a slot, that the slot stands within the pool and that no sum of places wraps.
pub fn base(pool: &[u8], st: Settings, s: usize) -> usize
    requires { Shape st (words pool.now) × (s < st.nodes) }
    ensures { Based st (words pool.now) s result }
{
    HEADER + s * width(st)
}

// How many words a slot has.
pub fn width(st: Settings) -> usize
    requires { st.rows ≤ 64 }
    ensures { result ≡ Slots.width st.rows }
{
    HEAD + ROW * st.rows
}
