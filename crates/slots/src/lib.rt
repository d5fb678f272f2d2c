// One node of a pool that is in order (`Held`): each function that changes it leaves a pool in order. So rows past the count are blank again, and a slot
// that is given up is all zero.
//
// A contract is an equation of lists, of the nodes that the slots hold, so it says of every slot of the pool what becomes of it.
#![tactic(auto)]

ghost use Rattle.std.specs.Prelude.{◌≡◌, ◌∷◌, [], get_or, set};
ghost use Rattle.words.specs.Words.{words};
ghost use Rattle.slots_raw.specs.Slots.{blank};
ghost use Rattle.slots.specs.Nodes.{nodes, nth, rows_at, put_rows, put_kind, put_in, without, unused};
ghost use Rattle.slots.specs.Promises.{NodesPut, ToTouch, ToTouchRows, ToPutIn, Counted};

use model::Settings;
use slots_raw::{Row, raw_count, raw_kind, raw_row};
use slots_write::{raw_clear, raw_move, raw_put, raw_put_count, raw_put_kind};

// The kinds of a node: a slot that holds none, a leaf, an interior node. (Numbers and no enum: a kind is a word of the pool, where any number may
// stand, and the nodes of another tree have kinds that this one only copies; the equations of `Nodes` are of words.)
pub const UNUSED: u64 = 0;

pub const LEAF: u64 = 1;

pub const INTERIOR: u64 = 2;

// The kind of node `s`.
pub fn kind(pool: &[u8], st: Settings, s: usize) -> u64
    requires { ToTouch st (words pool.now) s }
    ensures { result ≡ (nth (nodes st (words pool.now)) s).kind }
{
    raw_kind(pool, st, s)
}

// How many rows node `s` has.
pub fn count(pool: &[u8], st: Settings, s: usize) -> usize
    requires { ToTouch st (words pool.now) s }
    ensures { Counted st (words pool.now) s result }
{
    raw_count(pool, st, s)
}

// Row `i` of node `s`.
pub fn row_at(pool: &[u8], st: Settings, s: usize, i: usize) -> Row
    requires { ToTouchRows st (words pool.now) s i 1 }
    ensures { result ≡ get_or (rows_at st (words pool.now) s) i blank }
{
    raw_row(pool, st, s, i)
}

// Sets the kind of node `s`.
pub fn set_kind(pool: &mut [u8], st: Settings, s: usize, k: u64)
    requires { ToTouch st (words pool.old) s }
    ensures { let W = words pool.old in NodesPut st W (words pool.new) (put_kind (nodes st W) s k) }
{
    raw_put_kind(pool, st, s, k);
}

// Sets row `i` of node `s`.
pub fn set_row(pool: &mut [u8], st: Settings, s: usize, i: usize, row: Row)
    requires { ToTouchRows st (words pool.old) s i 1 }
    ensures { let W = words pool.old in
        NodesPut st W (words pool.new) (put_rows (nodes st W) s (set (rows_at st W s) i row)) }
{
    raw_put(pool, st, s, i, row);
}

// Puts `row` in at place `i` of node `s`.
pub fn insert_row(pool: &mut [u8], st: Settings, s: usize, i: usize, row: Row)
    requires { ToPutIn st (words pool.old) s i 1 }
    ensures { let W = words pool.old in
        NodesPut st W (words pool.new) (put_rows (nodes st W) s (put_in (rows_at st W s) i (row ∷ []))) }
{
    let n = count(pool, st, s);
    raw_move(pool, st, s, i, s, i + 1, n - i);
    raw_put(pool, st, s, i, row);
    raw_put_count(pool, st, s, n + 1);
}

// Takes row `i` out of node `s`.
pub fn remove_row(pool: &mut [u8], st: Settings, s: usize, i: usize)
    requires { ToTouchRows st (words pool.old) s i 1 }
    ensures { let W = words pool.old in
        NodesPut st W (words pool.new) (put_rows (nodes st W) s (without (rows_at st W s) i 1)) }
{
    remove_rows(pool, st, s, i, 1);
}

// Takes `a` rows out of node `s`, from row `i` on.
pub fn remove_rows(pool: &mut [u8], st: Settings, s: usize, i: usize, a: usize)
    requires { ToTouchRows st (words pool.old) s i a }
    ensures { let W = words pool.old in
        NodesPut st W (words pool.new) (put_rows (nodes st W) s (without (rows_at st W s) i a)) }
{
    let n = count(pool, st, s);
    raw_move(pool, st, s, i + a, s, i, n - (i + a));
    raw_clear(pool, st, s, n - a, a);
    raw_put_count(pool, st, s, n - a);
}

// Gives up slot `s`: it is unused from now on.
pub fn release(pool: &mut [u8], st: Settings, s: usize)
    requires { ToTouch st (words pool.old) s }
    ensures { let W = words pool.old in NodesPut st W (words pool.new) (set (nodes st W) s unused) }
{
    let n = count(pool, st, s);
    remove_rows(pool, st, s, 0, n);
    set_kind(pool, st, s, UNUSED);
}
