// A multi-get: one descent for each key. (The Rust goes down once for all keys. A descent has at most eight nodes, and one that starts
// anew needs no account of the way.)
ghost use Rattle.std.specs.Prelude.{◌≡◌, false, suc, ◌*◌, ◌≤◌, length};
ghost use Rattle.words.specs.Words.{words};
ghost use Rattle.slots.specs.Nodes.{nodes};
ghost use Rattle.model.specs.Tree.{entries};
ghost use Rattle.model.specs.Plain.{held};
ghost use Rattle.model.specs.Look.{found, present};
ghost use Rattle.tree.specs.Bridge.{tree_at};
ghost use Rattle.look_output.specs.Output.{page, enlist_all, fresh_page};
ghost use Rattle.look.specs.Promises.{ToDescend, Led};

use look_output::{Listed, list_row};
use model::Settings;
use tree_node::{child_at, child_for};

// Lists the entries of the keys that are present, key after key, until the output is full and another is due.
pub fn get_keys(
    pool: &[u8],
    st: Settings,
    height: usize,
    keys: &[u64],
    out: &mut [u8],
    room: usize,
) -> Listed
    requires grown { ToDescend st (words pool.now) height st.root }
    requires space { 24 * room ≤ length out.old }
    ensures { page out.new result ≡ enlist_all room
        (found keys.now (entries (suc height) (tree_at (nodes st (words pool.now)) height st.root)))
        (fresh_page out.old) }
{
    let mut l = Listed {
        written: 0,
        more: false,
    };
    for key in keys {
        if l.more {
            break;
        }
        l = get_key(pool, st, height, *key, out, room, l);
    }
    l
}

// Lists the entry of one key, if the key is present: dead ones too.
fn get_key(
    pool: &[u8],
    st: Settings,
    height: usize,
    key: u64,
    out: &mut [u8],
    room: usize,
    l: Listed,
) -> Listed
    requires grown { ToDescend st (words pool.now) height st.root }
    requires space { 24 * room ≤ length out.old }
    requires unfilled { l.more ≡ false }
    ensures { page out.new result ≡ enlist_all room
        (present key (held key (entries (suc height) (tree_at (nodes st (words pool.now)) height st.root))))
        (page out.old l) }
{
    let leaf = leaf_for(pool, st, height, key);
    match slots_find::search(pool, st, leaf, key) {
        Ok(i) => {
            let row = slots::row_at(pool, st, leaf, i);
            list_row(out, room, l, row)
        }
        Err(_) => l,
    }
}

// The leaf where a key stands, if it is present: down from the root, whose height falls to 0.
fn leaf_for(pool: &[u8], st: Settings, height: usize, key: u64) -> usize
    requires { ToDescend st (words pool.now) height st.root }
    ensures { Led st (words pool.now) height key st.root result }
{
    let mut s = st.root;
    for _h in (0..height).rev() {
        let i = child_for(pool, st, s, 0, key);
        s = child_at(pool, st, s, i);
    }
    s
}
