// The two pools, of which one is at hand. A turn turns them round, and is no call.
use crate::kind::Kind;
use crate::line::Call;
use trial::at;

// Whether the second pool is at hand, and how many bytes are lent: of the pool at hand, and of the other one.
#[derive(Clone, Copy)]
pub struct Pools {
    pub turned: bool,
    pub lent: usize,
    pub other: usize,
}

// The first pool is at hand, and neither has a byte yet.
pub fn none() -> Pools {
    Pools {
        turned: false,
        lent: 0,
        other: 0,
    }
}

// Whether a line is a turn: it has no arguments, and no answers.
pub fn is_turn(line: Call) -> bool {
    line.kind == Kind::Turn && line.args.is_empty() && line.answers.is_empty()
}

pub fn turn(p: Pools) -> Pools {
    Pools {
        turned: !p.turned,
        lent: p.other,
        other: p.lent,
    }
}

// An opening says how many bytes of the pool at hand are lent, for all calls up to its next one.
pub fn lend(p: Pools, call: Call) -> Pools {
    if call.kind != Kind::Open {
        return p;
    }
    Pools {
        lent: at(call.args, 5) as usize,
        ..p
    }
}
