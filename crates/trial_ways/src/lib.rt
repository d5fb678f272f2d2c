// The ways in which a word of a sound pool is damaged. Each is tried and put right again, and the pool is asked meanwhile whether it is
// sound.
#![tactic(auto)]

use trial::{plus, put_word, tell, word};
use trial_rules::{Shape, allows, allows_both};

// How a word is damaged. The ways are numbers, since a damage that was not expected is told by its number.
const WAYS: u64 = 10;

// The last way exchanges the word and the next one.
const EXCHANGE: u64 = 9;

// Whether the library takes the pool for sound, where it is asked for the totals of this tree.
pub fn sound(pool: &[u8], tree: usize) -> bool {
    index_look::totals(pool, tree).is_ok()
}

// What was found: damages that left the word as it was; of the others those after which the pool was unsound, and those after which it was
// still sound; and of all, those of which something else was expected.
#[derive(Clone, Copy)]
pub struct Tally {
    idle: u64,
    unsound: u64,
    sound: u64,
    wrong: u64,
}

// All words, one after the other.
pub fn damage(pool: &mut [u8], of: Shape) -> Tally {
    let mut tally = Tally {
        idle: 0,
        unsound: 0,
        sound: 0,
        wrong: 0,
    };
    for i in 0..pool.len() / 8 {
        damage_word(pool, of, i, &mut tally);
    }
    tally
}

pub fn report(words: usize, t: Tally) {
    tell(b", words ", words as u64);
    tell(b", damages that change a word: unsound ", t.unsound);
    tell(b", still sound ", t.sound);
    tell(b"; that change none ", t.idle);
    tell(b"; not as expected ", t.wrong);
}

fn damage_word(pool: &mut [u8], of: Shape, i: usize, tally: &mut Tally) {
    for way in 0..WAYS {
        damage_once(pool, of, i, way, tally);
    }
}

// One damage, asked of and put right.
fn damage_once(pool: &mut [u8], of: Shape, i: usize, way: u64, tally: &mut Tally) {
    let was = word(pool, i);
    if way == EXCHANGE {
        exchange(pool, of, i, was, tally);
        return;
    }
    let v = damaged(was, way);
    let expected = allows(pool, of, i, was, v);
    put_word(pool, i, v);
    let found = sound(pool, asked(way));
    put_word(pool, i, was);
    count(tally, was == v, found, expected, Place { i, way });
}

// The pool is asked for one tree and the other in turn.
fn asked(way: u64) -> usize {
    (way % 2) as usize
}

// A word and the next are exchanged.
fn exchange(pool: &mut [u8], of: Shape, i: usize, was: u64, tally: &mut Tally) {
    let next = plus(i, 1);
    if next >= pool.len() / 8 {
        return;
    }
    let v = word(pool, next);
    let expected = allows_both(pool, of, i, was, v);
    put_word(pool, i, v);
    put_word(pool, next, was);
    let found = sound(pool, asked(EXCHANGE));
    put_word(pool, i, was);
    put_word(pool, next, v);
    count(tally, was == v, found, expected, Place { i, way: EXCHANGE });
}

// Which damage it is.
#[derive(Clone, Copy)]
struct Place {
    i: usize,
    way: u64,
}

fn count(tally: &mut Tally, idle: bool, found: bool, expected: bool, place: Place) {
    sort(tally, idle, found);
    if found != expected {
        tell(b"\nword ", place.i as u64);
        tell(b", way ", place.way);
        tally.wrong = tally.wrong.wrapping_add(1);
    }
}

fn sort(tally: &mut Tally, idle: bool, found: bool) {
    if idle {
        tally.idle = tally.idle.wrapping_add(1);
    } else if found {
        tally.sound = tally.sound.wrapping_add(1);
    } else {
        tally.unsound = tally.unsound.wrapping_add(1);
    }
}

// The ways, but for the exchange. Two more or two less make a kind that of the other tree; the last two move a number of live entries and a
// child's slot by one.
fn damaged(w: u64, way: u64) -> u64 {
    match way {
        0 => w.wrapping_add(1),
        1 => w.wrapping_sub(1),
        2 => w.wrapping_add(2),
        3 => w.wrapping_sub(2),
        4 => 0,
        5 => u64::MAX,
        6 => w ^ 0x8000_0000_0000_0000,
        7 => w ^ 0x10_0000,
        _ => w ^ 0x100_0000_0000,
    }
}
