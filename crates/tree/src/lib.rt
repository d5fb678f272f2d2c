// The bridge between a pool's nodes and the trees of the model, which specs/ describes: the kind of a node, the limits of the settings, the length of a
// pool, and its opening.
#![tactic(auto)]

ghost use Rattle.std.specs.Prelude.{◌≡◌, ◌≤◌};
ghost use Rattle.model.specs.Answer.{Tells};
ghost use Rattle.model.specs.Sound.{PoolLimits};
ghost use Rattle.tree.specs.Bridge.{kind_for};
ghost use Rattle.tree.specs.Pool.{pool_len};
ghost use Rattle.tree.specs.Promises.{LimitsRight, Opened};

use model::{Limits, PoolSettings};
use slots::{INTERIOR, LEAF};
use slots_raw::{HEADER, width};

// The kind of a node whose height is `height`.
pub fn kind_for(height: usize) -> u64
    ensures { result ≡ kind_for height }
{
    if height == 0 { LEAF } else { INTERIOR }
}

// Whether a pool can have these settings.
pub fn in_limits(given: PoolSettings) -> bool
    ensures { Tells result (PoolLimits given) }
{
    if !within(8, given.nodes, 16384) {
        return false;
    }
    if !limits_right(given.first) {
        return false;
    }
    limits_right(given.second)
}

// Whether a tree can have these limits.
fn limits_right(limits: Limits) -> bool
    ensures { Tells result (LimitsRight limits) }
{
    if !within(4, limits.order, 32) {
        return false;
    }
    within(1, limits.minimum, (limits.order + 1) / 2)
}

// Whether `n` is `low` to `high`.
fn within(low: usize, n: usize, high: usize) -> bool
    ensures { Tells result ((low ≤ n) × (n ≤ high)) }
{
    low <= n && n <= high
}

// The exact length of a pool, in bytes.
pub fn pool_len(given: PoolSettings) -> usize
    requires { PoolLimits given }
    ensures { result ≡ pool_len given }
{
    let st = model_code::handed(given, 0);
    8 * (HEADER + given.nodes * width(st))
}

// Makes the pool two empty leaves, whatever it held, if the settings are in limits and its length is exact.
pub fn open(pool: &mut [u8], given: PoolSettings) -> bool
    ensures { Opened given pool.old result pool.new }
{
    if !in_limits(given) {
        return false;
    }
    if pool.len() != pool_len(given) {
        return false;
    }
    slots_pool::open_pool(pool, given);
    true
}
