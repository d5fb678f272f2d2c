// The refusals that look at the call alone.
ghost use Rattle.std.specs.Prelude.{◌≡◌};
ghost use Rattle.model.specs.Answer.{code};
ghost use Rattle.model.specs.Refuse.{called, descend, is_each, call_refusal};
ghost use Rattle.index_refuse.specs.Refusals.{miscounts};

use model::{Batch, Operation, Refusal, Settings};

// The first of the call's own refusals that applies.
pub fn check_call(st: Settings, batch: &Batch) -> Result<(), Refusal>
    ensures { code result ≡ call_refusal st (called batch.now) 0 }
{
    let n = batch.keys.len();
    if st.order < n {
        return Err(Refusal::TooManyKeys);
    }
    if miscounted(batch.operation, batch.places.len(), batch.sizes.len(), n) {
        return Err(Refusal::ReferencesMiscounted);
    }
    if descends(batch.keys) {
        return Err(Refusal::KeysDescend);
    }
    Ok(())
}

// Whether a key is followed by a smaller one.
pub fn descends(keys: &[u64]) -> bool
    ensures { result ≡ descend keys.now }
{
    for i in 1..keys.len() {
        if keys[i] < keys[i - 1] {
            return true;
        }
    }
    false
}

// Whether the references of a SetEach and the keys differ in number.
fn miscounted(op: Operation, places: usize, sizes: usize, n: usize) -> bool
    ensures { result ≡ miscounts op places sizes n }
{
    if is_each(op) {
        if places == n {
            return sizes != n;
        }
        return true;
    }
    false
}

fn is_each(op: Operation) -> bool
    ensures { result ≡ is_each op }
{
    matches!(op, Operation::SetEach)
}
