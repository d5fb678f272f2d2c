// THE RULES OF DAMAGE: whether a sound pool stays sound when a word of it is changed.
//
// It follows from the word's role in the layout (docs/POOL.md), by rules that are written down here again and use nothing of the library.
#![tactic(auto)]

mod header; // the words before the first slot

ghost use Rattle.std.specs.Prelude.{◌≤◌};

use header::header_allows;
use trial::{plus, times, word};

// The words before the first slot.
const HEADER: usize = 8;

// The kinds of leaves: of tree 0, and of tree 1. They are numbers, as every word of a pool is: a damaged one can be any.
const LEAF: u64 = 1;

const OTHER_LEAF: u64 = 3;

// What a pool was opened with, but for the minimum of each tree: how many nodes it has, and the order of each tree.
#[derive(Clone, Copy)]
pub struct Shape {
    pub nodes: usize,
    pub first: usize,
    pub second: usize,
}

// Whether the pool, sound as it is, stays so when word i, which is `was`, becomes v.
pub fn allows(pool: &[u8], of: Shape, i: usize, was: u64, v: u64) -> bool {
    if was == v {
        return true;
    }
    if i < HEADER {
        return header_allows(pool, of, i, v);
    }
    slot_allows(pool, of, spot_of(of, i - HEADER), was, v)
}

// Whether it stays so when word i, which is `was`, and the next one, which is v, are exchanged. What is asked of each is asked of both, but
// of a count and the first key: these two are told by each other.
pub fn allows_both(pool: &[u8], of: Shape, i: usize, was: u64, v: u64) -> bool {
    if was == v {
        return true;
    }
    !is_count(of, i) && allows(pool, of, i, was, v) && allows(pool, of, plus(i, 1), v, was)
}

fn is_count(of: Shape, i: usize) -> bool {
    i >= HEADER && spot_of(of, i - HEADER).part == 1
}

// The larger order of the two.
fn larger(of: Shape) -> usize {
    of.first.max(of.second)
}

// The words of a slot: a freed one serves either tree.
fn slot_width(of: Shape) -> usize
    ensures { 2 ≤ result }
{
    let order = larger(of);
    if order > 32 {
        return 2;
    }
    2 + 6 * order
}

// A word by its slot and its place in it.
#[derive(Clone, Copy)]
struct Spot {
    slot: usize,
    part: usize,
}

// The i-th word behind the header.
fn spot_of(of: Shape, i: usize) -> Spot {
    let width = slot_width(of);
    Spot {
        slot: i / width,
        part: i % width,
    }
}

// Nothing may change but rows of a leaf and, where the first row is all zero, the count of a root.
fn slot_allows(pool: &[u8], of: Shape, s: Spot, was: u64, v: u64) -> bool {
    let kind = slot_word(pool, of, s.slot, 0);
    if kind != LEAF && kind != OTHER_LEAF {
        return false;
    }
    if s.part == 0 {
        return false;
    }
    if s.part == 1 {
        return count_allows(pool, of, s.slot, was, v);
    }
    let row = (s.part - 2) / 3;
    let count = slot_word(pool, of, s.slot, 1);
    if row as u64 >= count {
        return false;
    }
    match (s.part - 2) % 3 {
        0 => key_allows(pool, of, s.slot, row, was, v),
        1 => place_allows(s.slot, was, v),
        _ => {
            let place = slot_word(pool, of, s.slot, s.part - 1);
            size_allows(s.slot, place, v)
        }
    }
}

// The words of a slot; past the slots they are 0.
fn slot_word(pool: &[u8], of: Shape, slot: usize, part: usize) -> u64 {
    word(pool, plus(plus(HEADER, times(slot, slot_width(of))), part))
}

// The roots of the trees 0 and 1 are in the slots 0 and 1, and have no parent.
fn is_root(slot: usize) -> bool {
    slot < 2
}

// A count tells which rows are zero, and a row of zeros can be none but the first: the entry of key 0, place 0 and size 0. A root may be
// left empty.
fn count_allows(pool: &[u8], of: Shape, slot: usize, was: u64, v: u64) -> bool {
    is_root(slot) && was <= 1 && v <= 1 && (2..5).all(|part| slot_word(pool, of, slot, part) == 0)
}

// Dead stays dead and live stays live, since the parent knows how many there are.
fn place_allows(slot: usize, was: u64, v: u64) -> bool {
    is_root(slot) || (was == 0) == (v == 0)
}

// A parent knows the sum of the live entries' sizes, so the size of a dead one is free; a size has 32 bits.
fn size_allows(slot: usize, place: u64, v: u64) -> bool {
    (is_root(slot) || place == 0) && v < 0x1_0000_0000
}

// A key keeps its rank among the keys of all leaves of its tree, and the greatest of a leaf is known to the parent.
fn key_allows(pool: &[u8], of: Shape, slot: usize, row: usize, was: u64, v: u64) -> bool {
    let kind = slot_word(pool, of, slot, 0);
    (is_root(slot) || !is_last(pool, of, slot, row))
        && (0..of.nodes).all(|s| keeps_rank(pool, of, kind, s, was, v))
}

fn is_last(pool: &[u8], of: Shape, slot: usize, row: usize) -> bool {
    let count = slot_word(pool, of, slot, 1);
    row as u64 >= count.wrapping_sub(1)
}

// Each other key of a leaf of this kind is on the same side of v as of `was`.
fn keeps_rank(pool: &[u8], of: Shape, kind: u64, s: usize, was: u64, v: u64) -> bool {
    slot_word(pool, of, s, 0) != kind || !(0..larger(of)).any(|j| rank_lost(pool, of, s, j, was, v))
}

fn rank_lost(pool: &[u8], of: Shape, s: usize, j: usize, was: u64, v: u64) -> bool {
    if j as u64 >= slot_word(pool, of, s, 1) {
        return false;
    }
    let k = slot_word(pool, of, s, plus(2, times(3, j)));
    k != was && (k == v || (k < was) != (k < v))
}
