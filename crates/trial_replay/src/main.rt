// Replays a list of calls with the answers of the Rust, counts how many the index answers otherwise, and says which of the numbered cases of
// document 01, and of the readings of what it leaves open, hold.
//
// The list is this crate's stdin, made from the third variant of the Rust with the plain rules by
//
//     oracle/target/release/sample 3000 1 >crates/trial_replay/stdin
//
// The third variant agreed on each call that was done on a sound pool. A refusal's number, the bytes of a pool, and what is read from a
// frame are of the plain rules alone.
//
// A line is one call, in decimal numbers: its kind, how many arguments, the arguments, how many answers, the answers. A call on one tree has the
// tree's number as its first argument. There are two pools.
// All calls are done on the one at hand, which each opening makes anew; kind 14 packs it into the other one, and kind 15, which is no call,
// turns the two round. A line that cannot be read counts as answered otherwise. Behind the sampled calls stand packings of worn pools, then
// the cases and the readings; what each of these wants is written out in oracle/src/cases.rs.
#![tactic(auto)]

use std::io::{Read, Stdin};
use trial::{say, tell};
use trial_calls::replay;
use trial_lines::cases::Cases;
use trial_lines::line::{Call, Line, Numbers, is_empty, said, start, take};
use trial_lines::pools::Pools;
use trial_lines::tally::{Tally, count, report};
use trial_lines::told::same;
use trial_lines::{cases, pools, tally};

// The longest pool of the list has 38,464 bytes.
type Pool = [u8; 65536];

// What is kept between two bytes of the list: which pool is at hand and how long both are, how many lines have ended, what is known of the
// line, and what of the cases and the calls.
#[derive(Clone, Copy)]
struct State {
    pools: Pools,
    lines: u64,
    line: Option<Line>,
    cases: Cases,
    tally: Tally,
}

fn main(rt: HostRuntime) {
    let mut input = rt.stdin();
    let mut first = [0u8; 65536];
    let mut second = [0u8; 65536];
    let mut numbers = [0u64; 2048];
    let mut s = State {
        pools: pools::none(),
        lines: 0,
        line: start(),
        cases: cases::none(),
        tally: tally::none(),
    };
    for _ in 0..u64::MAX {
        if !read_turn(&mut input, &mut first, &mut second, &mut numbers, &mut s) {
            break;
        }
    }
    // the last line may lack its line feed
    if !is_empty(s.line) {
        finish(&mut first, &mut second, &numbers, &mut s);
    }
    cases::end(&mut s.cases);
    report(&s.tally);
    cases::report(s.cases);
}

// One read from standard input. Answers whether there may be more to read.
fn read_turn(
    input: &mut Stdin,
    first: &mut Pool,
    second: &mut Pool,
    numbers: &mut Numbers,
    s: &mut State,
) -> bool {
    let mut buf = io::buffer();
    let n = input.read(&mut buf).unwrap_or(0);
    for b in &buf[..n] {
        feed(first, second, numbers, s, *b);
    }
    n > 0
}

// Another byte of the list.
fn feed(first: &mut Pool, second: &mut Pool, numbers: &mut Numbers, s: &mut State, b: u8) {
    if b == b'\n' {
        finish(first, second, numbers, s);
    } else {
        s.line = take(numbers, s.line, b);
    }
}

// A line ends: it begins a case or a reading, it turns the pools round, or its call is done and counted.
fn finish(first: &mut Pool, second: &mut Pool, numbers: &Numbers, s: &mut State) {
    let line = said(numbers, s.line);
    s.line = start();
    s.lines = s.lines.wrapping_add(1);
    if let Some(head) = line.and_then(cases::headed) {
        cases::begin(&mut s.cases, head);
    } else if line.is_some_and(pools::is_turn) {
        s.pools = pools::turn(s.pools);
    } else {
        finish_call(first, second, line, s);
    }
}

// A line that could not be read is a call that is answered otherwise.
fn finish_call(first: &mut Pool, second: &mut Pool, line: Option<Call>, s: &mut State) {
    let ok = match line {
        Some(call) => is_answered(first, second, call, s),
        None => {
            count(&mut s.tally, None, None, false);
            false
        }
    };
    if !ok {
        tell(b"line ", s.lines);
        say(b" answered otherwise\n");
    }
    cases::count(&mut s.cases, ok);
}

// Whether the call is answered as its line has it.
fn is_answered(first: &mut Pool, second: &mut Pool, call: Call, s: &mut State) -> bool {
    s.pools = pools::lend(s.pools, call);
    let told = replay(first, second, s.pools, call);
    let ok = same(told, call.answers);
    count(&mut s.tally, Some(call.kind), told, ok);
    ok
}
