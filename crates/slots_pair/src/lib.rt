// Rows that go from a node to another. Each function copies them first and takes them out then: in
// between they stand in both nodes, and the pool is in order all the while.
#![tactic(auto)]

ghost use Rattle.std.specs.Prelude.{length};
ghost use Rattle.words.specs.Words.{words};
ghost use Rattle.slots_raw.specs.Over.{part};
ghost use Rattle.slots.specs.Nodes.{nodes, rows_at, put_rows, put_in, split_nodes, back_nodes, forward_nodes, join_nodes};
ghost use Rattle.slots.specs.Promises.{NodesPut, ToPass, ToSplit, ToGive};

use model::Settings;
use slots::{count, kind, release, remove_rows, set_kind};
use slots_write::{raw_move, raw_put_count};

// Node `s` keeps its first `keep` rows, and the others go to the unused slot `new`.
pub fn split(pool: &mut [u8], st: Settings, s: usize, new: usize, keep: usize)
    requires { ToSplit st (words pool.old) s new keep }
    ensures { let W = words pool.old in NodesPut st W (words pool.new) (split_nodes (nodes st W) s new keep) }
{
    let n = count(pool, st, s);
    let k = kind(pool, st, s);
    set_kind(pool, st, new, k);
    insert_from(pool, st, s, keep, new, 0, n - keep);
    remove_rows(pool, st, s, keep, n - keep);
}

// The first `a` rows of node `s` go to the end of node `prev`.
pub fn share_back(pool: &mut [u8], st: Settings, prev: usize, s: usize, a: usize)
    requires { ToGive st (words pool.old) s prev a }
    ensures { let W = words pool.old in NodesPut st W (words pool.new) (back_nodes (nodes st W) prev s a) }
{
    let n = count(pool, st, prev);
    insert_from(pool, st, s, 0, prev, n, a);
    remove_rows(pool, st, s, 0, a);
}

// The last `a` rows of node `s` go to the front of node `next`.
pub fn share_forward(pool: &mut [u8], st: Settings, s: usize, next: usize, a: usize)
    requires { ToGive st (words pool.old) s next a }
    ensures { let W = words pool.old in NodesPut st W (words pool.new) (forward_nodes (nodes st W) s next a) }
{
    let n = count(pool, st, s);
    insert_from(pool, st, s, n - a, next, 0, a);
    remove_rows(pool, st, s, n - a, a);
}

// The rows of node `high` go to the end of node `low`, and slot `high` is unused from now on.
pub fn join(pool: &mut [u8], st: Settings, low: usize, high: usize)
    requires { ToGive st (words pool.old) high low (length (rows_at st (words pool.old) high)) }
    ensures { let W = words pool.old in NodesPut st W (words pool.new) (join_nodes (nodes st W) low high) }
{
    let n = count(pool, st, low);
    let a = count(pool, st, high);
    insert_from(pool, st, high, 0, low, n, a);
    release(pool, st, high);
}

// Copies `a` rows of node `s`, from row `from` on, and puts them in at place `i` of node `t`.
fn insert_from(pool: &mut [u8], st: Settings, s: usize, from: usize, t: usize, i: usize, a: usize)
    requires { ToPass st (words pool.old) s from t i a }
    ensures { let W = words pool.old in
        NodesPut st W (words pool.new) (put_rows (nodes st W) t (put_in (rows_at st W t) i (part (rows_at st W s) from a))) }
{
    let n = count(pool, st, t);
    raw_move(pool, st, t, i, t, i + a, n - i);
    raw_move(pool, st, s, from, t, i, a);
    raw_put_count(pool, st, t, n + a);
}
