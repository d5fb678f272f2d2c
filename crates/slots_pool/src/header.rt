// The header: the layout's number and the settings, one word each; and a new pool.
ghost use Rattle.std.specs.Prelude.{◌≡◌, suc, ◌+◌, ◌≤◌, ◌<◌, ◌++◌, length, drop, set};
ghost use Rattle.words.specs.Words.{words};
ghost use Rattle.model.specs.Answer.{Tells};
ghost use Rattle.model.specs.Sound.{rows_for, handed, PoolLimits};
ghost use Rattle.slots_raw.specs.Slots.{head_len};
ghost use Rattle.slots_raw.specs.Promises.{Shape};
ghost use Rattle.slots.specs.Nodes.{leaf_kind, nodes, put_kind, Held};
ghost use Rattle.slots.specs.Promises.{NodesPut};
ghost use Rattle.slots_pool.specs.Header.{header_of, limits_at, settings_of, layout_of, Reserved};
ghost use Rattle.slots_pool.specs.Image.{image, new_nodes};

use crate::LAYOUT;
use model::{Limits, PoolSettings};
use slots::{LEAF, set_kind};

// Makes the pool a new one: an empty leaf of each tree, in slots 0 and 1, and every other slot unused. Nothing of what the bytes held
// before is left.
pub fn open_pool(pool: &mut [u8], given: PoolSettings)
    requires limits { PoolLimits given }
    requires shape { Shape (handed given 0) (words pool.old) }
    ensures { words pool.new ≡ header_of given ++ image 0 (rows_for given) (new_nodes given.nodes) }
{
    let n = pool.len() / 8;
    words_runs::clear(pool, 0, n);
    write_header(pool, given);
    plant(pool, given, 0);
    plant(pool, given, 1);
}

// Makes the root's slot of a tree an empty leaf of it, where nothing is yet.
fn plant(pool: &mut [u8], given: PoolSettings, tree: usize)
    requires limits { PoolLimits given }
    requires held { Held (handed given tree) (words pool.old) }
    ensures { let W = words pool.old in let st = handed given tree in
        NodesPut st W (words pool.new) (put_kind (nodes st W) st.root leaf_kind) }
{
    let st = model_code::handed(given, tree);
    set_kind(pool, st, st.root, LEAF);
}

// The settings that the header says. They may be any: a pool that was not opened has them too.
pub fn settings(pool: &[u8]) -> PoolSettings
    requires { head_len ≤ length (words pool.now) }
    ensures { result ≡ settings_of (words pool.now) }
{
    let nodes = words::get(pool, 1) as usize;
    let first = limits_at(pool, 2);
    let second = limits_at(pool, 5);
    PoolSettings {
        nodes,
        first,
        second,
    }
}

// The limits of a tree, from word `i` on.
fn limits_at(pool: &[u8], i: usize) -> Limits
    requires { suc i < length (words pool.now) }
    ensures { result ≡ limits_at (words pool.now) i }
{
    let order = words::get(pool, i) as usize;
    let minimum = words::get(pool, i + 1) as usize;
    Limits { order, minimum }
}

// Whether the two words of the header that say nothing are zero.
pub fn reserved_zero(pool: &[u8]) -> bool
    requires { head_len ≤ length (words pool.now) }
    ensures { Tells result (Reserved (words pool.now)) }
{
    if words::get(pool, 4) != 0 {
        return false;
    }
    words::get(pool, 7) == 0
}

// The number of the layout that the header says.
pub fn layout(pool: &[u8]) -> u64
    requires { head_len ≤ length (words pool.now) }
    ensures { result ≡ layout_of (words pool.now) }
{
    words::get(pool, 0)
}

// Writes the header, whatever stood there.
fn write_header(pool: &mut [u8], given: PoolSettings)
    requires { head_len ≤ length (words pool.old) }
    ensures { words pool.new ≡ header_of given ++ drop head_len (words pool.old) }
{
    words::put(pool, 0, LAYOUT);
    words::put(pool, 1, given.nodes as u64);
    write_limits(pool, 2, given.first);
    write_limits(pool, 5, given.second);
}

// Writes the limits of a tree from word `i` on, and the zero behind them.
fn write_limits(pool: &mut [u8], i: usize, limits: Limits)
    requires { i + 2 < length (words pool.old) }
    ensures { let W = words pool.old in
        words pool.new ≡ set (set (set W i limits.order) (i + 1) limits.minimum) (i + 2) 0 }
{
    words::put(pool, i, limits.order as u64);
    words::put(pool, i + 1, limits.minimum as u64);
    words::put(pool, i + 2, 0);
}
