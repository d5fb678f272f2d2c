// The calls: what a tree of a sound pool holds, told by its index. `st` and `height` are the tree's own; the caller
// has read them when it tested the pool.
ghost use Rattle.std.specs.Prelude.{◌≡◌};
ghost use Rattle.model.specs.Tree.{totals_of};
ghost use Rattle.model.specs.Look.{get_all};
ghost use Rattle.model.specs.Look as look;
ghost use Rattle.tree.specs.Pool.{index_of};
ghost use Rattle.tree.specs.Promises.{InPool};
ghost use Rattle.look_output.specs.Output.{room_in};
ghost use Rattle.look.specs.Promises.{Written};

use crate::lookup::get_keys;
use look_output::{Listed, Scanned};
use look_scan::scan_node;
use model::{Request, Settings, Totals};

// The totals of the whole tree.
pub fn totals(pool: &[u8], st: Settings, height: usize) -> Totals
    requires { InPool pool.now st height }
    ensures { result ≡ totals_of (index_of pool.now st.root) }
{
    tree_node::stats(pool, st, height, st.root)
}

// Lists one entry for each key that is present (the Rust's `get`).
pub fn get(pool: &[u8], st: Settings, height: usize, keys: &[u64], out: &mut [u8]) -> Listed
    requires { InPool pool.now st height }
    ensures { Written (get_all keys.now (room_in out.old) (index_of pool.now st.root)) out.old result.written
        result.more out.new }
{
    let room = out.len() / 24;
    get_keys(pool, st, height, keys, out, room)
}

// Lists the live entries in a range, up or down, and tells how many nodes it opened.
pub fn scan(pool: &[u8], st: Settings, height: usize, q: Request, out: &mut [u8]) -> Scanned
    requires { InPool pool.now st height }
    ensures written { Written (look.scan q (room_in out.old) (index_of pool.now st.root)).listed out.old result.written result.more
        out.new }
    ensures opened { result.opened ≡ (look.scan q (room_in out.old) (index_of pool.now st.root)).opened }
{
    let w = Scanned {
        written: 0,
        more: false,
        opened: 0,
    };
    let room = out.len() / 24;
    scan_node(pool, st, height, st.root, q, out, room, w)
}
