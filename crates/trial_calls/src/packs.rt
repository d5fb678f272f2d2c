// Kind 14: the pool at hand is packed into the other one.
use trial_lines::told::{Told, checked};

pub fn pack(pool: &[u8], other: &mut [u8]) -> Told {
    let answer = index::pack(pool, other);
    checked(other, answer)
}
