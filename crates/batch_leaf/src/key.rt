// One key in a leaf: it is looked for, what is asked of it is decided, and done.
ghost use Rattle.std.specs.Prelude.{◌≡◌};
ghost use Rattle.words.specs.Words.{words};
ghost use Rattle.slots.specs.Nodes.{nodes, rows_at, put_rows};
ghost use Rattle.slots.specs.Promises.{NodesPut, ToTouch};
ghost use Rattle.slots_find.specs.Promises.{Sought};
ghost use Rattle.batch_leaf.specs.Promises.{ToTakeKey, ToPerform, KeyDone};
ghost use Rattle.batch_leaf.specs.Keys.{held_at, place_of, performed};

use batch_effect::{Held, decide};
use model::{Effect, Settings, Wish};
use tree_rows::{entry_place, entry_row};

// Does to leaf `s` what is asked of one key. Its answer is what was done.
pub fn change_key(pool: &mut [u8], st: Settings, s: usize, key: u64, wish: Wish) -> Effect
    requires { ToTakeKey st (words pool.old) s }
    ensures { KeyDone st (words pool.old) (words pool.new) s (record { key = key; wish = wish }) result }
{
    let found = slots_find::search(pool, st, s, key);
    let here = held_at(pool, st, s, key, found);
    let effect = decide(wish, here);
    let i = place_of(found);
    perform(pool, st, s, i, key, effect);
    effect
}

// What stands where `key` was found.
fn held_at(
    pool: &[u8],
    st: Settings,
    s: usize,
    key: u64,
    found: Result<usize, usize>,
) -> Option<Held>
    requires { ToTouch st (words pool.now) s × Sought (rows_at st (words pool.now) s) key found }
    ensures { result ≡ held_at (rows_at st (words pool.now) s) found }
{
    match found {
        Ok(i) => {
            let row = slots::row_at(pool, st, s, i);
            Some(Held {
                place: entry_place(row),
                size: row.size,
            })
        }
        Err(_) => None,
    }
}

// The row where a key was found, or before which it would stand.
fn place_of(found: Result<usize, usize>) -> usize
    ensures { result ≡ place_of found }
{
    match found {
        Ok(i) | Err(i) => i,
    }
}

// Does what is decided at row `i` of leaf `s`.
fn perform(pool: &mut [u8], st: Settings, s: usize, i: usize, key: u64, e: Effect)
    requires { ToPerform st (words pool.old) s i e }
    ensures { let W = words pool.old in
        NodesPut st W (words pool.new) (put_rows (nodes st W) s (performed (rows_at st W s) i key e)) }
{
    match e {
        Effect::Leave => {}
        Effect::Add(r) => {
            let row = entry_row(key, r);
            slots::insert_row(pool, st, s, i, row);
        }
        Effect::Replace(r) => {
            let row = entry_row(key, r);
            slots::set_row(pool, st, s, i, row);
        }
        Effect::Remove => slots::remove_row(pool, st, s, i),
    }
}
