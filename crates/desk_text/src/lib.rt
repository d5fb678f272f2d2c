// What the desk program says, as text in bytes that are lent: a text put at a place, numbers in decimal, `done` and `refused`.
#![tactic(auto)]

ghost use Rattle.std.specs.Prelude.{◌+◌, ◌≤◌, ◌≡◌, length};
ghost use Rattle.model.specs.Answer.{number};
ghost use Rattle.desk_text.specs.Texts.{over, spaced, done_text, refused_text};

use model::{Counts, Refusal};

// Puts a text at a place, and answers the place behind it.
pub fn put(bytes: &mut [u8], at: usize, text: &[u8]) -> usize
    requires { at + length text.now ≤ length bytes.old }
    ensures end { result ≡ at + length text.now }
    ensures written { bytes.new ≡ over at text.now bytes.old }
{
    let end = at + text.len();
    bytes[at..end].copy_from_slice(text);
    end
}

// Puts a space and a number in decimal.
fn put_number(bytes: &mut [u8], at: usize, n: u64) -> usize
    requires { at + 21 ≤ length bytes.old }
    ensures end { result ≡ at + length (spaced n) }
    ensures short { result ≤ at + 21 }
    ensures written { bytes.new ≡ over at (spaced n) bytes.old }
{
    let mut digits = [0u8; 20];
    let k = io::decimal(n, &mut digits);
    let behind = put(bytes, at, b" ");
    put(bytes, behind, &digits[..k])
}

// `done` and the four counts, in the first bytes; answers how many they are.
pub fn say_done(bytes: &mut [u8], c: Counts) -> usize
    requires { 89 ≤ length bytes.old }
    ensures end { result ≡ length (done_text c) }
    ensures written { bytes.new ≡ over 0 (done_text c) bytes.old }
{
    let word = put(bytes, 0, b"done");
    let added = put_number(bytes, word, c.added as u64);
    let replaced = put_number(bytes, added, c.replaced as u64);
    let removed = put_number(bytes, replaced, c.removed as u64);
    let nothing = put_number(bytes, removed, c.nothing as u64);
    put(bytes, nothing, b"\n")
}

// `refused` and the number.
pub fn say_refused(bytes: &mut [u8], why: Refusal) -> usize
    requires { 89 ≤ length bytes.old }
    ensures end { result ≡ length (refused_text (number why)) }
    ensures written { bytes.new ≡ over 0 (refused_text (number why)) bytes.old }
{
    let word = put(bytes, 0, b"refused");
    let n = u32::from(why);
    let end = put_number(bytes, word, n as u64);
    put(bytes, end, b"\n")
}
