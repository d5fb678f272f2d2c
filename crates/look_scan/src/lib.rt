// A scan's walk: node after node, in the order of the scan, until the output is full and another entry is due.
#![tactic(auto)]

ghost use Rattle.std.specs.Prelude.{◌≡◌, false, [], ◌∷◌, suc, ◌+◌, ◌*◌, ◌≤◌, length};
ghost use Rattle.words.specs.Words.{words};
ghost use Rattle.slots.specs.Nodes.{nodes};
ghost use Rattle.model.specs.Lists.{keep};
ghost use Rattle.model.specs.Look.{due, openings};
ghost use Rattle.tree.specs.Bridge.{entry_of, child_of, tree_at};
ghost use Rattle.look_output.specs.Output.{page, enlist_all};
ghost use Rattle.look_scan.specs.Walk.{walk_at, visit_all, openings_of};
ghost use Rattle.look_scan.specs.Promises.{ToScan, ToEnter};

use crate::query::{goes_on, is_due, is_entered, place_in};
use look_output::{Listed, Scanned, list_row};
use model::{Request, Settings};
use slots_raw::Row;

mod query; // what a scan asks of a row

// Scans the tree of this height in slot `s` (the Rust's `scan`).
#[cycle(scan_child_scan_children_scan_node)]
pub fn scan_node(
    pool: &[u8],
    st: Settings,
    height: usize,
    s: usize,
    q: Request,
    out: &mut [u8],
    room: usize,
    w: Scanned,
) -> Scanned
    requires { ToScan st (words pool.now) height s q out.old room w }
    ensures { walk_at out.new result ≡ visit_all room (openings q height (tree_at (nodes st (words pool.now)) height s))
        (walk_at out.old w) }
{
    if height == 0 {
        return scan_leaf(pool, st, s, q, out, room, w);
    }
    scan_children(pool, st, height - 1, s, q, out, room, w)
}

// An interior in slot `s`, whose children have height `below`.
#[cycle(scan_child_scan_children_scan_node)]
fn scan_children(
    pool: &[u8],
    st: Settings,
    below: usize,
    s: usize,
    q: Request,
    out: &mut [u8],
    room: usize,
    w: Scanned,
) -> Scanned
    requires { ToScan st (words pool.now) (suc below) s q out.old room w }
    ensures { walk_at out.new result ≡ visit_all room (openings q (suc below) (tree_at (nodes st (words pool.now)) (suc below) s))
        (walk_at out.old w) }
{
    let n = slots::count(pool, st, s);
    let mut at = Scanned {
        written: w.written,
        more: false,
        opened: w.opened + 1,
    };
    for j in 0..n {
        if at.more {
            break;
        }
        let i = place_in(q, n, j);
        let row = slots::row_at(pool, st, s, i);
        at = scan_child(pool, st, below, row, q, out, room, at);
        if !goes_on(q, row.key) {
            return at;
        }
    }
    at
}

// The child of this height that a row names, if the scan enters it.
#[cycle(scan_child_scan_children_scan_node)]
fn scan_child(
    pool: &[u8],
    st: Settings,
    below: usize,
    row: Row,
    q: Request,
    out: &mut [u8],
    room: usize,
    w: Scanned,
) -> Scanned
    requires { ToEnter st (words pool.now) below row q out.old room w }
    ensures { walk_at out.new result ≡ visit_all room
        (openings_of q below (tree_at (nodes st (words pool.now)) below (child_of row) ∷ [])) (walk_at out.old w) }
{
    if !is_entered(q, row) {
        return w;
    }
    let child = tree_rows::child_of(row);
    scan_node(pool, st, below, child, q, out, room, w)
}

// A leaf in slot `s`.
fn scan_leaf(
    pool: &[u8],
    st: Settings,
    s: usize,
    q: Request,
    out: &mut [u8],
    room: usize,
    w: Scanned,
) -> Scanned
    requires { ToScan st (words pool.now) 0 s q out.old room w }
    ensures { walk_at out.new result ≡ visit_all room (openings q 0 (tree_at (nodes st (words pool.now)) 0 s))
        (walk_at out.old w) }
{
    let n = slots::count(pool, st, s);
    let opened = w.opened + 1;
    let mut l = Listed {
        written: w.written,
        more: false,
    };
    for j in 0..n {
        if l.more {
            break;
        }
        let i = place_in(q, n, j);
        let row = slots::row_at(pool, st, s, i);
        l = list_due(q, out, room, l, row);
    }
    Scanned {
        written: l.written,
        more: l.more,
        opened,
    }
}

// Lists the entry of a leaf's row, if it is due.
fn list_due(q: Request, out: &mut [u8], room: usize, l: Listed, row: Row) -> Listed
    requires space { 24 * room ≤ length out.old }
    requires unfilled { l.more ≡ false }
    ensures { page out.new result ≡ enlist_all room (keep (due q) (entry_of row ∷ [])) (page out.old l) }
{
    if !is_due(q, row) {
        return l;
    }
    list_row(out, room, l, row)
}
