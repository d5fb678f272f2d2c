// Bytes to the numbers of a line, and these to what the line says.
use crate::kind;
use crate::kind::Kind;
use trial::{at, plus, put};

// The numbers of a line as they are read. A line with more than these cannot be read.
pub type Numbers = [u64; 2048];

// What is known of a line: how many of its numbers are whole, and whether the next one has a digit yet. Of a line that cannot be read nothing
// is known.
#[derive(Clone, Copy, PartialEq, Eq)]
pub struct Line {
    whole: usize,
    digits: bool,
}

// A line that has ended: its kind, arguments and answers.
#[derive(Clone, Copy)]
pub struct Call<'a> {
    pub kind: Kind,
    pub args: &'a [u64],
    pub answers: &'a [u64],
}

// A line begins.
pub fn start() -> Option<Line> {
    Some(Line {
        whole: 0,
        digits: false,
    })
}

// The line has no byte yet.
pub fn is_empty(line: Option<Line>) -> bool {
    line == start()
}

// One more byte of a line, other than a line feed.
pub fn take(numbers: &mut Numbers, line: Option<Line>, b: u8) -> Option<Line> {
    match b {
        b' ' => next(line?),
        b'0'..=b'9' => digit(numbers, line?, (b - b'0') as u64),
        _ => None,
    }
}

// A number ends. Without a digit it is none.
fn next(line: Line) -> Option<Line> {
    let next = Line {
        whole: plus(line.whole, 1),
        digits: false,
    };
    line.digits.then_some(next)
}

// A number has one more digit; it must fit in 64 bits.
fn digit(numbers: &mut Numbers, line: Line, d: u64) -> Option<Line> {
    let v = before(numbers, line).checked_mul(10)?.checked_add(d)?;
    put(numbers, line.whole, v);
    Some(Line {
        digits: true,
        ..line
    })
}

// What the digits of a number say so far.
fn before(numbers: &Numbers, line: Line) -> u64 {
    if line.digits {
        at(numbers, line.whole)
    } else {
        0
    }
}

// What a line says that has ended; nothing where it could not be read, or is not a kind, arguments and answers.
pub fn said(numbers: &Numbers, line: Option<Line>) -> Option<Call<'_>> {
    let line = line?;
    if !line.digits {
        return None;
    }
    call_of(numbers.get(..plus(line.whole, 1))?)
}

fn call_of(numbers: &[u64]) -> Option<Call<'_>> {
    let kind = kind::of(at(numbers, 0))?;
    let args = list(numbers, 1);
    let n = args.len();
    let answers = list(numbers, plus(2, n));
    if n as u64 != at(numbers, 1) || numbers.len() != plus(3, plus(n, answers.len())) {
        return None;
    }
    Some(Call {
        kind,
        args,
        answers,
    })
}

// A list: at i stands how long it is, and behind that its numbers; none where these are not there.
pub fn list(s: &[u64], i: usize) -> &[u64] {
    let from = plus(i, 1);
    let end = plus(from, at(s, i) as usize);
    s.get(from..end).unwrap_or(&[])
}
