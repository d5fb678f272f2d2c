// Damages sound pools word by word, and asks of each damaged pool whether it is still sound. One pool besides is damaged by hand.
//
// Crate trial_ways has the damages, and crate trial_rules what is expected of each.
#![tactic(auto)]

mod twice; // a slot that both trees name

use model::{Batch, Limits, Operation, PoolSettings};
use trial::{say, tell, times};
use trial_rules::Shape;
use trial_ways::{damage, report, sound};
use twice::slot_named_twice;

fn main() {
    empty();
    lone_leaves();
    zero_entries();
    pool_p();
    two_levels();
    three_levels();
    slot_named_twice();
}

// Which keys a tree is given: `n` of them, key k being first + step × k, with k = stride × j modulo 128 for the j-th. Where `dead` is not
// 0, each dead-th is marked as deleted, and sizes differ.
#[derive(Clone, Copy)]
struct Plan {
    n: usize,
    stride: usize,
    first: u64,
    step: usize,
    dead: usize,
}

fn some(n: usize, stride: usize, first: u64, step: usize, dead: usize) -> Plan {
    Plan {
        n,
        stride,
        first,
        step,
        dead,
    }
}

// No keys.
fn none() -> Plan {
    some(0, 1, 0, 1, 0)
}

fn limits(order: usize, minimum: usize) -> Limits {
    Limits { order, minimum }
}

fn settings(nodes: usize, first: Limits, second: Limits) -> PoolSettings {
    PoolSettings {
        nodes,
        first,
        second,
    }
}

// A new pool.
fn empty() {
    let mut pool = [0u8; 1728];
    let given = settings(8, limits(4, 2), limits(4, 2));
    say(b"new pool, N 8, orders 4 and 4:");
    attempt(&mut pool, given, none(), none());
}

// One leaf of four entries, and one of three in the other tree.
fn lone_leaves() {
    let mut pool = [0u8; 2112];
    let given = settings(8, limits(4, 1), limits(5, 2));
    say(b"leaves of four and three, N 8, orders 4 and 5:");
    attempt(&mut pool, given, some(4, 1, 9, 3, 2), some(3, 1, 10, 2, 3));
}

// In each tree one leaf with the entry that is all zero.
fn zero_entries() {
    let mut pool = [0u8; 1728];
    let given = settings(8, limits(4, 1), limits(4, 1));
    say(b"leaves of one entry of zeros, N 8, orders 4 and 4:");
    attempt(&mut pool, given, some(1, 1, 0, 1, 1), some(1, 1, 0, 1, 1));
}

// The pool P of the cases.
fn pool_p() {
    let mut pool = [0u8; 3392];
    let given = settings(16, limits(4, 2), limits(4, 2));
    say(b"P, N 16, orders 4 and 4:");
    attempt(&mut pool, given, some(5, 1, 1, 1, 0), none());
}

fn two_levels() {
    let mut pool = [0u8; 8512];
    let given = settings(24, limits(5, 2), limits(7, 3));
    say(b"two levels each, N 24, orders 5 and 7:");
    attempt(
        &mut pool,
        given,
        some(17, 37, 1, 3, 4),
        some(23, 51, 2, 2, 3),
    );
}

fn three_levels() {
    let mut pool = [0u8; 25664];
    let given = settings(64, limits(8, 4), limits(4, 2));
    say(b"three levels each, N 64, orders 8 and 4:");
    attempt(
        &mut pool,
        given,
        some(100, 37, 1, 3, 5),
        some(32, 45, 1, 3, 4),
    );
}

// Opens a pool, sets the keys of a plan for each tree, and damages it.
fn attempt(pool: &mut [u8], given: PoolSettings, first: Plan, second: Plan) {
    if index::open(pool, given).is_err() {
        say(b" not opened\n");
        return;
    }
    tell(b" keys ", filled(pool, first, second));
    if !sound(pool, 0) {
        say(b", not sound at first\n");
        return;
    }
    let t = damage(pool, shape(given));
    report(pool.len() / 8, t);
    if sound(pool, 0) {
        say(b"; sound again\n");
    } else {
        say(b"; unsound at last\n");
    }
}

fn shape(given: PoolSettings) -> Shape {
    let first = given.first;
    let second = given.second;
    Shape {
        nodes: given.nodes,
        first: first.order,
        second: second.order,
    }
}

// Sets the keys one by one, a key of each tree in turn, so that their nodes lie between each other's; answers how many were added.
fn filled(pool: &mut [u8], first: Plan, second: Plan) -> u64 {
    let mut added: u64 = 0;
    for j in 0..first.n.max(second.n) {
        added = added.wrapping_add(set_one(pool, 0, first, j));
        added = added.wrapping_add(set_one(pool, 1, second, j));
    }
    added
}

// Sets the j-th key of a plan, if it has one.
fn set_one(pool: &mut [u8], tree: usize, p: Plan, j: usize) -> u64 {
    if j >= p.n {
        return 0;
    }
    let k = times(p.stride, j) % 128;
    let key = p.first.wrapping_add(times(p.step, k) as u64);
    let keys = [key];
    let places = [place_of(key, k, p.dead)];
    let sizes = [size_of(k, p.dead)];
    let batch = Batch {
        operation: Operation::SetEach,
        keys: &keys,
        places: &places,
        sizes: &sizes,
    };
    match index::batch(pool, tree, &batch) {
        Ok(c) => c.added as u64,
        Err(_) => 0,
    }
}

// Nothing has a remainder by 0: then none is marked.
fn place_of(key: u64, k: usize, dead: usize) -> u64 {
    if k.checked_rem(dead) == Some(0) {
        0
    } else {
        key.wrapping_add(256)
    }
}

fn size_of(k: usize, dead: usize) -> u32 {
    if dead != 0 && k % 3 == 0 { 0 } else { 16 }
}
