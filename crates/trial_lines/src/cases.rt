// The lines that are no calls but heads: the calls behind one, up to the next one, are those of a numbered case, or of a reading.
use crate::kind::Kind;
use crate::line::Call;
use trial::{at, say, tell};

// What a line heads, with its number.
#[derive(Clone, Copy)]
pub enum Head {
    Case(u64),
    Reading(u64),
}

// The case or reading at hand: whether it has a call, and whether one was answered otherwise.
#[derive(Clone, Copy)]
struct Case {
    head: Head,
    tried: bool,
    amiss: bool,
}

// The case or reading at hand, where there is one, and how many cases and how many readings held before it.
#[derive(Clone, Copy)]
pub struct Cases {
    at_hand: Option<Case>,
    cases: u64,
    readings: u64,
}

// No case yet.
pub fn none() -> Cases {
    Cases {
        at_hand: None,
        cases: 0,
        readings: 0,
    }
}

// What a line heads, if it is a head: it has one number, and no answers.
pub fn headed(line: Call) -> Option<Head> {
    if line.args.len() != 1 || !line.answers.is_empty() {
        return None;
    }
    let number = at(line.args, 0);
    match line.kind {
        Kind::Case => Some(Head::Case(number)),
        Kind::Reading => Some(Head::Reading(number)),
        _ => None,
    }
}

// What was at hand ends, and what a line heads begins.
pub fn begin(cases: &mut Cases, head: Head) {
    end(cases);
    cases.at_hand = Some(Case {
        head,
        tried: false,
        amiss: false,
    });
}

// A call was made, and answered as the list has it or otherwise.
pub fn count(cases: &mut Cases, same: bool) {
    if let Some(case) = &mut cases.at_hand {
        case.tried = true;
        case.amiss = case.amiss || !same;
    }
}

// Says whether what was at hand holds, and counts it.
pub fn end(cases: &mut Cases) {
    let Some(case) = cases.at_hand.take() else {
        return;
    };
    name(case.head);
    if !holds(case) {
        say(b" FAILS\n");
        return;
    }
    say(b" holds\n");
    match case.head {
        Head::Case(_) => cases.cases = cases.cases.wrapping_add(1),
        Head::Reading(_) => cases.readings = cases.readings.wrapping_add(1),
    }
}

fn name(head: Head) {
    match head {
        Head::Case(number) => tell(b"case ", number),
        Head::Reading(number) => tell(b"reading ", number),
    }
}

// It has a call, and each was answered as the list has it.
fn holds(case: Case) -> bool {
    case.tried && !case.amiss
}

pub fn report(cases: Cases) {
    tell(b"cases that held: ", cases.cases);
    tell(b"\nreadings that held: ", cases.readings);
    say(b"\n");
}
