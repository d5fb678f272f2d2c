// What is blank in a pool that is not known to be in order: the rows of a slot past some number, and a whole slot.
ghost use Rattle.std.specs.Prelude.{◌≡◌, ◌-◌, ◌<◌, ◌≤◌, drop, replicate};
ghost use Rattle.words.specs.Words.{words};
ghost use Rattle.model.specs.Answer.{Tells};
ghost use Rattle.slots_raw.specs.Promises.{Shape};
ghost use Rattle.slots_raw.specs.Slots.{raw_at, blank};
ghost use Rattle.slots.specs.Nodes.{unused, raw_for};

use model::Settings;
use slots_raw::{HEAD, ROW, base};

// Whether the rows of slot `s` from row `n` on are all blank.
pub fn tail_zero(pool: &[u8], st: Settings, s: usize, n: usize) -> bool
    requires there { Shape st (words pool.now) × (s < st.nodes) }
    requires few { n ≤ st.rows }
    ensures { Tells result (drop n (raw_at st (words pool.now) s).cells ≡ replicate (st.rows - n) blank) }
{
    let b = base(pool, st, s);
    words_runs::all_zero(pool, b + (HEAD + n * ROW), (st.rows - n) * ROW)
}

// Whether slot `s` is all zero, as an unused slot is.
pub fn slot_zero(pool: &[u8], st: Settings, s: usize) -> bool
    requires { Shape st (words pool.now) × (s < st.nodes) }
    ensures { Tells result (raw_at st (words pool.now) s ≡ raw_for st.rows unused) }
{
    let b = base(pool, st, s);
    words_runs::all_zero(pool, b, slots_raw::width(st))
}
