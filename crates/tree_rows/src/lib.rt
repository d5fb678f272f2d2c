// What the words of a row mean, and what a row adds to its node. A leaf's row is an entry: its key, its place and its size. An interior's
// row is a child: its greatest key, its slot beside its live and dead entries, and the size sum of the live ones.
//
// The crates of the index ask here, so that none but this one takes a row apart or puts one together.
#![tactic(auto)]

ghost use Rattle.std.specs.Prelude.{◌≡◌, ◌<◌};
ghost use Rattle.model.specs.Tree.{adds, plus};
ghost use Rattle.model.specs.Plain.{entry_for};
ghost use Rattle.tree.specs.Bridge.{entry_row, entry_of, child_of, child_row, child_totals, row_totals};
ghost use Rattle.tree.specs.Promises.{ToAdd, ToPack};

use model::{Entry, Reference, Totals};
use slots_raw::Row;

// What a row of a node of height `height` adds to the node's totals.
pub fn row_totals(height: usize, row: Row) -> Totals
    ensures { result ≡ row_totals height row }
{
    if height == 0 {
        return entry_totals(row);
    }
    child_totals(row)
}

// What a leaf's row adds: its entry, dead or live. The size of a dead one does not count.
pub fn entry_totals(row: Row) -> Totals
    ensures { result ≡ adds (entry_of row) }
{
    let place = entry_place(row);
    if model_code::is_mark(place) {
        return Totals {
            live: 0,
            dead: 1,
            size: 0,
        };
    }
    Totals {
        live: 1,
        dead: 0,
        size: row.size,
    }
}

// A leaf's row, of a key and its reference.
pub fn entry_row(key: u64, r: Reference) -> Row
    ensures { result ≡ entry_row (entry_for key r) }
{
    Row {
        key,
        body: r.place,
        size: r.size as u64,
    }
}

// The entry of a leaf's row. A row has a whole word for the size.
pub fn entry_of(row: Row) -> Entry
    requires { row.size < 4294967296 }
    ensures { result ≡ entry_of row }
{
    Entry {
        key: row.key,
        place: entry_place(row),
        size: row.size as u32,
    }
}

// The place in a leaf's row.
pub fn entry_place(row: Row) -> u64
    ensures { result ≡ (entry_of row).place }
{
    row.body
}

// What an interior's row adds: what it stores of its child.
pub fn child_totals(row: Row) -> Totals
    ensures { result ≡ child_totals row }
{
    Totals {
        live: (row.body / 0x10_0000 % 0x10_0000) as u32,
        dead: (row.body % 0x10_0000) as u32,
        size: row.size,
    }
}

// The slot that an interior's row names.
pub fn child_of(row: Row) -> usize
    ensures { result ≡ child_of row }
{
    (row.body / 0x100_0000_0000) as usize
}

// The row of a child: its slot stands in the body above its counts, which have twenty bits each.
pub fn child_row(key: u64, slot: usize, t: Totals) -> Row
    requires { ToPack slot t }
    ensures { result ≡ child_row key slot t }
{
    let body = slot as u64 * 0x100_0000_0000 + t.live as u64 * 0x10_0000 + t.dead as u64;
    Row {
        key,
        body,
        size: t.size,
    }
}

// The sum of two totals.
pub fn plus_totals(a: Totals, b: Totals) -> Totals
    requires { ToAdd a b }
    ensures { result ≡ plus a b }
{
    Totals {
        live: a.live + b.live,
        dead: a.dead + b.dead,
        size: a.size + b.size,
    }
}
