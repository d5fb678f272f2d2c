// Answers as the list has them: 0 or the number of a refusal, and what is told besides.
//
// Where no answers at all are told, the call was not one, or something was written where nothing may be: no line has that.
use model::Refusal;

// The modulus of a check.
const MODULUS: u64 = 1_000_000_007;

// The first n of six answers.
#[derive(Clone, Copy)]
pub struct Told {
    n: usize,
    of: [u64; 6],
}

// These answers, of which there are at most six.
pub fn answered(answers: &[u64]) -> Told {
    let mut of = [0; 6];
    for (place, answer) in of.iter_mut().zip(answers) {
        *place = *answer;
    }
    Told {
        n: answers.len(),
        of,
    }
}

// A refusal of a call that may change nothing.
pub fn refused(why: Refusal) -> Told {
    answered(&[u32::from(why) as u64])
}

// No more than the check of the pool is told.
pub fn checked(pool: &[u8], answer: Result<(), Refusal>) -> Told {
    let number = match answer {
        Ok(()) => 0,
        Err(why) => u32::from(why),
    };
    answered(&[number as u64, check(pool)])
}

pub fn is_refusal(told: Option<Told>) -> bool {
    told.is_some_and(|t| t.of[0] != 0)
}

// Whether these are the answers of a line.
pub fn same(told: Option<Told>, answers: &[u64]) -> bool {
    told.is_some_and(|t| t.of.get(..t.n) == Some(answers))
}

// THE CHECK of bytes is h = (31 h + byte) modulo a prime, from 0 on.

pub fn check(bytes: &[u8]) -> u64 {
    check_on(0, bytes)
}

// The check goes on with the bytes of a word, the lowest first.
pub fn check_word(before: u64, word: u64) -> u64 {
    check_on(before, &word.to_le_bytes())
}

fn check_on(before: u64, bytes: &[u8]) -> u64 {
    bytes.iter().fold(before, |h, b| check_byte(h, *b))
}

fn check_byte(h: u64, b: u8) -> u64 {
    (31 * (h % MODULUS) + b as u64) % MODULUS
}
