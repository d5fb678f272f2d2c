// Kinds 7 to 9 and 16 of the lines: calls on one tree with an output. Past what they write it must stay as it was. `index` passes these calls
// on as they are.
#![tactic(auto)]

use model::{Bound, Direction, Refusal, Sift};
use trial::{at, plus, times};
use trial_lines::form::size;
use trial_lines::line::list;
use trial_lines::told::{Told, answered, check, check_word, refused};

// What an output is filled with before a call.
const FRESH: u8 = 170;

// The calls with an output.
#[derive(Clone, Copy)]
pub enum Query {
    Get,
    Scan,
    Portion,
    Frame,
}

// What a call has written: so many bytes, of which these are the answers.
#[derive(Clone, Copy)]
struct Written {
    bytes: usize,
    told: Told,
}

// Lends as many bytes of room as the call asks for. The arguments are those behind the tree's number.
pub fn look(pool: &[u8], tree: usize, query: Query, args: &[u64]) -> Option<Told> {
    let mut room = [FRESH; 4096];
    let out = room.get_mut(..lent(query, args))?;
    let answer = match query {
        Query::Get => get(pool, tree, args, out),
        Query::Scan => scan(pool, tree, args, out),
        Query::Portion => portion(pool, tree, args, out),
        Query::Frame => frame(pool, tree, args, out),
    };
    let written = answer.unwrap_or_else(nothing);
    is_fresh(out, written.bytes).then_some(written.told)
}

// How many bytes of room a call asks for.
fn lent(query: Query, args: &[u64]) -> usize {
    let bytes = match query {
        Query::Get => at(args, 0),
        Query::Scan => at(args, 8),
        Query::Portion => at(args, 7),
        Query::Frame => at(args, 1),
    };
    bytes as usize
}

// A call that is refused writes nothing.
fn nothing(why: Refusal) -> Written {
    Written {
        bytes: 0,
        told: refused(why),
    }
}

fn get(pool: &[u8], tree: usize, args: &[u64], out: &mut [u8]) -> Result<Written, Refusal> {
    let g = index_look::get(pool, tree, list(args, 1), out)?;
    let bytes = times(24, g.written);
    let check = check(first(out, bytes));
    Ok(Written {
        bytes,
        told: answered(&[0, g.written as u64, g.more as u64, check]),
    })
}

fn scan(pool: &[u8], tree: usize, args: &[u64], out: &mut [u8]) -> Result<Written, Refusal> {
    let start = bound(args, 0);
    let end = bound(args, 3);
    let s = index_look::scan(pool, tree, start, end, direction(args), sift(args, 7), out)?;
    let bytes = times(24, s.written);
    let check = check(first(out, bytes));
    Ok(Written {
        bytes,
        told: answered(&[0, s.written as u64, s.more as u64, s.opened as u64, check]),
    })
}

fn portion(pool: &[u8], tree: usize, args: &[u64], out: &mut [u8]) -> Result<Written, Refusal> {
    let start = bound(args, 0);
    let end = bound(args, 3);
    let p = index_portion::portion(pool, tree, start, end, sift(args, 6), out)?;
    let s = p.scanned;
    let bytes = times(24, s.written);
    let check = check_bound(check(first(out, bytes)), p.next);
    Ok(Written {
        bytes,
        told: answered(&[
            0,
            s.written as u64,
            s.more as u64,
            s.opened as u64,
            p.ended as u64,
            check,
        ]),
    })
}

fn frame(pool: &[u8], tree: usize, args: &[u64], out: &mut [u8]) -> Result<Written, Refusal> {
    let n = index_look::frame(pool, tree, at(args, 0) as usize, out)?;
    Ok(Written {
        bytes: n,
        told: answered(&[0, n as u64, check(first(out, n))]),
    })
}

// The first n bytes of an output.
fn first(out: &[u8], n: usize) -> &[u8] {
    out.get(..n).unwrap_or(out)
}

// No more than the first n bytes of an output are written.
fn is_fresh(out: &[u8], n: usize) -> bool {
    out.iter().skip(n).all(|b| *b == FRESH)
}

// The check goes on with a bound: bounded, included, key.
fn check_bound(before: u64, b: Bound) -> u64 {
    match b {
        Bound::Unbounded => check_words(before, 0, 0, 0),
        Bound::Included(key) => check_words(before, 1, 1, key),
        Bound::Excluded(key) => check_words(before, 1, 0, key),
    }
}

fn check_words(before: u64, bounded: u64, included: u64, key: u64) -> u64 {
    check_word(check_word(check_word(before, bounded), included), key)
}

fn bound(args: &[u64], i: usize) -> Bound {
    let key = at(args, plus(i, 2));
    if at(args, i) == 0 {
        return Bound::Unbounded;
    }
    if at(args, plus(i, 1)) == 0 {
        Bound::Excluded(key)
    } else {
        Bound::Included(key)
    }
}

fn direction(args: &[u64]) -> Direction {
    if at(args, 6) == 0 {
        Direction::Up
    } else {
        Direction::Down
    }
}

// A scan for each size is one from 0 on.
fn sift(args: &[u64], i: usize) -> Sift {
    let least = size(at(args, i));
    if least == 0 {
        Sift::All
    } else {
        Sift::SizeAtLeast(least)
    }
}
