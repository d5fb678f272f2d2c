// What a wish does under a key, by what stands there; what that adds to the counts; and whether the next key is due.
#![tactic(auto)]

ghost use Rattle.std.specs.Prelude.{◌≡◌, ◌||◌};
ghost use Rattle.model.specs.Plain.{act, met, effect, same, count, alters, reference_for};
ghost use Rattle.batch_effect.specs.Under.{option_of, is_due, AtMost};

use model::{Action, Counts, Effect, Expectation, Reference, Wish};

// What stands under a key: a place, and a size as a row has it, in a whole word.
#[derive(Clone, Copy)]
pub struct Held {
    pub place: u64,
    pub size: u64,
}

// What a wish does under a key.
pub fn decide(wish: Wish, here: Option<Held>) -> Effect
    ensures { result ≡ effect wish (option_of here) }
{
    match wish {
        Wish::Always(a) => effect_of(a, here),
        Wish::IfMet(e, a) => {
            if meets(e, here) {
                effect_of(a, here)
            } else {
                Effect::Leave
            }
        }
    }
}

// What an action does under a key.
fn effect_of(a: Action, here: Option<Held>) -> Effect
    ensures { result ≡ act a (option_of here) }
{
    match (a, here) {
        (Action::Set(r), None) => Effect::Add(r),
        (Action::Set(r), Some(_)) => Effect::Replace(r),
        (Action::Remove, None) => Effect::Leave,
        (Action::Remove, Some(_)) => Effect::Remove,
    }
}

// Whether an expectation is met. A dead entry is present too.
fn meets(e: Expectation, here: Option<Held>) -> bool
    ensures { result ≡ met e (option_of here) }
{
    match (e, here) {
        (Expectation::Absent, None) => true,
        (Expectation::Absent, Some(_)) => false,
        (Expectation::Holds(_), None) => false,
        (Expectation::Holds(r), Some(held)) => same_reference(r, held),
    }
}

fn same_reference(a: Reference, b: Held) -> bool
    ensures { result ≡ same a (reference_for b.place b.size) }
{
    a.place == b.place && wide(a.size) == b.size
}

// A size as a row holds it.
fn wide(size: u32) -> u64
    ensures { result ≡ size }
{
    size as u64
}

// Whether an effect changes the leaf, or an earlier one did. A replacement does, by an equal reference too.
pub fn altered(was: bool, e: Effect) -> bool
    ensures { result ≡ (was || alters e) }
{
    match e {
        Effect::Leave => was,
        Effect::Add(_) => true,
        Effect::Replace(_) => true,
        Effect::Remove => true,
    }
}

// The counts with one effect more.
pub fn counted(c: Counts, e: Effect) -> Counts
    requires { AtMost c 4294967296 }
    ensures { result ≡ count e c }
{
    let mut n = c;
    match e {
        Effect::Leave => n.nothing += 1,
        Effect::Add(_) => n.added += 1,
        Effect::Replace(_) => n.replaced += 1,
        Effect::Remove => n.removed += 1,
    }
    n
}

// Whether there is a key `next`, and it does not exceed the ceiling.
pub fn is_due(keys: &[u64], next: usize, ceiling: u64) -> bool
    ensures { result ≡ is_due keys.now next ceiling }
{
    if next < keys.len() {
        let key = keys[next];
        return key <= ceiling;
    }
    false
}
