// A slot that both trees name, and a leaf that none does: each tree by itself looks right, and as many slots are in use as nodes are reached.
//
// N 8 and order 4. Slot 0 is an interior over the slots 2 and 3, slot 1 one over the slots 2 and 4. The slot that nobody names is 5: it holds
// what slot 2 holds, and with it in the place of slot 2 in one tree the pool is sound.
use trial::{plus, put_word, say, times};
use trial_ways::sound;

// The kinds of a leaf and of an interior, of tree 0 and of tree 1, as the pool has them in a word.
const LEAF: u64 = 1;

const INTERIOR: u64 = 2;

const OTHER_LEAF: u64 = 3;

const OTHER_INTERIOR: u64 = 4;

// The slots 2 and 5 are tried as leaves of either tree.
pub fn slot_named_twice() {
    say(b"a slot that both trees name, N 8, orders 4 and 4; asked for either tree:");
    ask(LEAF, LEAF, 2);
    ask(LEAF, OTHER_LEAF, 2);
    ask(OTHER_LEAF, LEAF, 2);
    ask(OTHER_LEAF, OTHER_LEAF, 2);
    say(b"; with a slot for each:");
    ask(LEAF, OTHER_LEAF, 5);
    say(b"\n");
}

// Whether such a pool is sound, asked for one tree and for the other. It has 8 × (8 + 8 × 26) bytes.
fn ask(second: u64, fifth: u64, child: u64) {
    let mut pool = [0u8; 1728];
    ask_of(&mut pool, second, fifth, child);
}

fn ask_of(pool: &mut [u8], second: u64, fifth: u64, child: u64) {
    write(pool, second, fifth, child);
    tell_sound(sound(pool, 0));
    tell_sound(sound(pool, 1));
}

fn tell_sound(is: bool) {
    if is {
        say(b" sound");
    } else {
        say(b" unsound");
    }
}

// The slots 2 and 5 are of these kinds, and the first child of tree 1 is in this slot. The header: layout 2, eight nodes; order 4, minimum 2
// and a zero of each tree.
fn write(pool: &mut [u8], second: u64, fifth: u64, child: u64) {
    put_words(pool, 0, [2, 8, 4, 2, 0, 4, 2, 0]);
    put_slot(pool, 0, interior(INTERIOR, 2, 2, 3, 4));
    put_slot(pool, 1, interior(OTHER_INTERIOR, child, 2, 4, 6));
    put_leaves(pool, second, fifth);
}

fn put_leaves(pool: &mut [u8], second: u64, fifth: u64) {
    put_slot(pool, 2, leaf(second, 1));
    put_slot(pool, 3, leaf(LEAF, 3));
    put_slot(pool, 4, leaf(OTHER_LEAF, 5));
    put_slot(pool, 5, leaf(fifth, 1));
}

// A kind and two rows: a key and the next.
fn leaf(kind: u64, key: u64) -> [u64; 8] {
    [kind, 2, key, 256, 16, key.wrapping_add(1), 256, 16]
}

// A kind and two rows: the slots and greatest keys of two leaves.
fn interior(kind: u64, a: u64, last_a: u64, b: u64, last_b: u64) -> [u64; 8] {
    [kind, 2, last_a, below(a), 32, last_b, below(b), 32]
}

// A child's slot, with two live entries.
fn below(slot: u64) -> u64 {
    (slot % 8) * 0x100_0000_0000 + 2 * 0x10_0000
}

// Slots of 26 words, behind a header of 8.
fn put_slot(pool: &mut [u8], slot: usize, ws: [u64; 8]) {
    put_words(pool, plus(8, times(26, slot)), ws);
}

fn put_words(pool: &mut [u8], from: usize, ws: [u64; 8]) {
    for (i, w) in ws.iter().enumerate() {
        put_word(pool, plus(from, i), *w);
    }
}
