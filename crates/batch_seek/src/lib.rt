// The steps of the walk among a node's children that leave the pool as it is.
#![tactic(auto)]

ghost use Rattle.std.specs.Prelude.{◌≡◌, ◌||◌, length};
ghost use Rattle.words.specs.Words.{words};
ghost use Rattle.slots.specs.Nodes.{rows_at};
ghost use Rattle.slots.specs.Promises.{ToTouch};
ghost use Rattle.model.specs.Change.{result_of, is_change, ceiling_for};
ghost use Rattle.batch_seek.specs.Seek.{roams};

use batch_effect::is_due;
use model::{ChangeResult, Settings};

// Whether the walk of node `s` goes on from child `i` with key `next`.
pub fn roams_on(
    pool: &[u8],
    st: Settings,
    s: usize,
    keys: &[u64],
    next: usize,
    ceiling: u64,
    i: usize,
) -> bool
    requires { ToTouch st (words pool.now) s }
    ensures { result ≡ roams keys.now next ceiling i (length (rows_at st (words pool.now) s)) }
{
    if is_due(keys, next, ceiling) {
        let n = slots::count(pool, st, s);
        return i < n;
    }
    false
}

// The ceiling handed down to a child: a key above the separator, which only the last child gets, is its own ceiling.
pub fn ceiling_for(separator: u64, key: u64, ceiling: u64) -> u64
    ensures { result ≡ ceiling_for separator key ceiling }
{
    if separator < key {
        return key;
    }
    if separator < ceiling {
        return separator;
    }
    ceiling
}

// Whether a node is changed once a child of it has this result.
pub fn changed_by(was: bool, v: ChangeResult) -> bool
    ensures { result ≡ (was || is_change v) }
{
    match v {
        ChangeResult::Unchanged => was,
        ChangeResult::Remove => true,
        ChangeResult::Absorb => true,
        ChangeResult::Changed => true,
        ChangeResult::Split => true,
    }
}

// What became of a node that has `n` rows now: document 01's node result.
pub fn result_of(st: Settings, changed: bool, n: usize) -> ChangeResult
    ensures { result ≡ result_of st changed n }
{
    if changed {
        if n == 0 {
            return ChangeResult::Remove;
        }
        if n > st.order {
            return ChangeResult::Split;
        }
        if n < st.minimum {
            return ChangeResult::Absorb;
        }
        return ChangeResult::Changed;
    }
    ChangeResult::Unchanged
}
