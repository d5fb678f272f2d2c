// Kind 10 of the lines: a frame is read, and what was read is written again. `index` passes both calls on as they are.
#![tactic(auto)]

use frame_text::{Contents, FrameEntry, Kind};
use trial_lines::told::{Told, answered, check_word, refused};

// The line's bytes are numbers below 256.
pub fn read(numbers: &[u64]) -> Option<Told> {
    // room for 33 entries of an interior, one more than a frame may have, and for a few bytes behind them
    let mut text = [0u8; 2000];
    spell(numbers, &mut text);
    let line = text.get(..numbers.len())?;
    match frame_read::read(line) {
        Ok(contents) => written(line, contents),
        Err(why) => Some(refused(why)),
    }
}

fn spell(numbers: &[u64], text: &mut [u8; 2000]) {
    for (place, number) in text.iter_mut().zip(numbers) {
        *place = (*number % 256) as u8;
    }
}

// The contents, where they are this line when they are written.
fn written(line: &[u8], c: Contents) -> Option<Told> {
    let mut again = [0u8; 2000];
    let n = frame_write::write(c, &mut again).ok()?;
    (again.get(..n) == Some(line)).then_some(told_of(c))
}

fn told_of(c: Contents) -> Told {
    answered(&[0, u64::from(c.kind), c.count as u64, check_entries(c)])
}

// The check of five rows of 32 words each: keys, places or size sums, sizes or child numbers, live entries, dead ones.
fn check_entries(c: Contents) -> u64 {
    let entries = c.entries;
    let keys = entries.iter().fold(0, |h, e| check_word(h, e.key));
    let wides = entries
        .iter()
        .fold(keys, |h, e| check_word(h, wide(c.kind, *e)));
    let narrows = entries
        .iter()
        .fold(wides, |h, e| check_word(h, narrow(c.kind, *e) as u64));
    let live = entries
        .iter()
        .fold(narrows, |h, e| check_word(h, e.totals.live as u64));
    entries
        .iter()
        .fold(live, |h, e| check_word(h, e.totals.dead as u64))
}

// The place of a leaf's entry, the size sum of an interior's.
fn wide(kind: Kind, e: FrameEntry) -> u64 {
    match kind {
        Kind::Leaf => e.reference.place,
        Kind::Interior => e.totals.size,
    }
}

// The size of a leaf's entry, the child number of an interior's.
fn narrow(kind: Kind, e: FrameEntry) -> u32 {
    match kind {
        Kind::Leaf => e.reference.size,
        Kind::Interior => e.child,
    }
}
