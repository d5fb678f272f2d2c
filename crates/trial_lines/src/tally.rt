// The tally of the calls, in all and of each kind.
use crate::kind::Kind;
use crate::told::{Told, is_refusal};
use trial::{say, tell};

// How many calls there were, how many of them were refused, and how many were answered otherwise.
#[derive(Clone, Copy)]
struct Row {
    calls: u64,
    refused: u64,
    otherwise: u64,
}

// The kinds have the rows of their numbers. The first row is that of all calls.
#[derive(Clone, Copy)]
pub struct Tally {
    rows: [Row; 17],
}

pub fn none() -> Tally {
    let row = Row {
        calls: 0,
        refused: 0,
        otherwise: 0,
    };
    Tally { rows: [row; 17] }
}

// A line that could not be read has no kind, and is counted as a call for all that.
pub fn count(tally: &mut Tally, kind: Option<Kind>, told: Option<Told>, same: bool) {
    count_in(&mut tally.rows[0], told, same);
    if let Some(kind) = kind {
        count_in(&mut tally.rows[kind as usize], told, same);
    }
}

fn count_in(row: &mut Row, told: Option<Told>, same: bool) {
    row.calls = one_more(row.calls, true);
    row.refused = one_more(row.refused, is_refusal(told));
    row.otherwise = one_more(row.otherwise, !same);
}

fn one_more(n: u64, on: bool) -> u64 {
    n.wrapping_add(on as u64)
}

// The kinds 12, 13 and 15 are no calls, and are not told of.
pub fn report(tally: &Tally) {
    report_kind(tally, Kind::Open, b"open ");
    report_kind(tally, Kind::Totals, b"totals ");
    report_kind(tally, Kind::Set, b"set ");
    report_kind(tally, Kind::SetEach, b"set each ");
    report_kind(tally, Kind::Remove, b"remove ");
    report_kind(tally, Kind::Compare, b"compare ");
    report_kind(tally, Kind::Get, b"get ");
    report_kind(tally, Kind::Scan, b"scan ");
    report_kind(tally, Kind::Frame, b"frame ");
    report_kind(tally, Kind::ReadFrame, b"read frame ");
    report_kind(tally, Kind::Put, b"put ");
    report_kind(tally, Kind::Pack, b"pack ");
    report_kind(tally, Kind::Portion, b"portion ");
    let all = tally.rows[0];
    tell(b"", all.calls);
    tell(b" calls, ", all.refused);
    tell(b" refused, ", all.otherwise);
    say(b" answered otherwise\n");
}

fn report_kind(tally: &Tally, kind: Kind, name: &[u8]) {
    let row = tally.rows[kind as usize];
    tell(name, row.calls);
    tell(b", refused ", row.refused);
    tell(b", otherwise ", row.otherwise);
    say(b"\n");
}
