// Slots as they are stored, written: a kind, a count, a row, rows moved and rows cleared. A slot need not make sense before or after, so only the
// functions on nodes are made of these: they leave a pool in order.
#![tactic(auto)]

ghost use Rattle.std.specs.Prelude.{◌<◌, ◌∷◌, [], replicate};
ghost use Rattle.words.specs.Words.{words};
ghost use Rattle.slots_raw.specs.Over.{over, part};
ghost use Rattle.slots_raw.specs.Promises.{Shape, ToTouchCells};
ghost use Rattle.slots_write.specs.Promises.{SlotsPut};
ghost use Rattle.slots_raw.specs.Slots.{raw_at, blank};
ghost use Rattle.slots_write.specs.Puts.{put_slot_kind, put_count, put_cells};

use model::Settings;
use slots_raw::{HEAD, ROW, Row, base, seen};

// Sets the kind of slot `s`.
pub fn raw_put_kind(pool: &mut [u8], st: Settings, s: usize, kind: u64)
    requires { Shape st (words pool.old) × (s < st.nodes) }
    ensures { let W = words pool.old in SlotsPut st W (words pool.new) (put_slot_kind st W s kind) }
{
    let b = base(pool, st, s);
    let stored = seen(st.root, kind);
    words::put(pool, b, stored);
}

// Sets the count of slot `s`.
pub fn raw_put_count(pool: &mut [u8], st: Settings, s: usize, count: usize)
    requires { Shape st (words pool.old) × (s < st.nodes) }
    ensures { let W = words pool.old in SlotsPut st W (words pool.new) (put_count st W s count) }
{
    let b = base(pool, st, s);
    words::put(pool, b + 1, count as u64);
}

// Sets row `i` of slot `s`.
pub fn raw_put(pool: &mut [u8], st: Settings, s: usize, i: usize, row: Row)
    requires { ToTouchCells st (words pool.old) s i 1 }
    ensures { let W = words pool.old in
        SlotsPut st W (words pool.new) (put_cells st W s (over (raw_at st W s).cells i 1 (row ∷ []))) }
{
    let p = base(pool, st, s) + (HEAD + i * ROW);
    words::put(pool, p, row.key);
    words::put(pool, p + 1, row.body);
    words::put(pool, p + 2, row.size);
}

// Copies `n` rows of slot `s`, from row `from` on, to slot `t`, from row `to` on. The two may be one slot,
// and the runs may overlap.
pub fn raw_move(pool: &mut [u8], st: Settings, s: usize, from: usize, t: usize, to: usize, n: usize)
    requires { ToTouchCells st (words pool.old) s from n × ToTouchCells st (words pool.old) t to n }
    ensures { let W = words pool.old in
        let cells = over (raw_at st W t).cells to n (part (raw_at st W s).cells from n) in
        SlotsPut st W (words pool.new) (put_cells st W t cells) }
{
    let a = base(pool, st, s);
    let b = base(pool, st, t);
    words_runs::shift(
        pool,
        a + (HEAD + from * ROW),
        b + (HEAD + to * ROW),
        n * ROW,
    );
}

// Makes `n` rows of slot `s`, from row `from` on, blank.
pub fn raw_clear(pool: &mut [u8], st: Settings, s: usize, from: usize, n: usize)
    requires { ToTouchCells st (words pool.old) s from n }
    ensures { let W = words pool.old in
        SlotsPut st W (words pool.new) (put_cells st W s (over (raw_at st W s).cells from n (replicate n blank))) }
{
    let b = base(pool, st, s);
    words_runs::clear(pool, b + (HEAD + from * ROW), n * ROW);
}
