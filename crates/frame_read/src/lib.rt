// Reading a frame to a kind and entries.
#![tactic(auto)]

ghost use Rattle.std.specs.Prelude.{◌≡◌, true, ◌+◌, ◌*◌, ◌≤◌, ◌<◌, length, drop};
ghost use Rattle.model.specs.ReadFrame.{read_line};
ghost use Rattle.frame_text.specs.declared.Kind.TheVariants.{Leaf, Interior};
ghost use Rattle.frame_text.specs.Contents.{held};
ghost use Rattle.frame_text.specs.Answers.{Reads};
ghost use Rattle.frame_text.specs.Digits.{is_hex, pairs};
ghost use Rattle.frame_text.specs.Entries.{start_of, entry_in, entries_in, rest_of};

use frame_text::{
    Contents, FrameEntry, Kind, ascending, branch, is_hex, leaf_entry, no_entry, number, start_of,
    width,
};
use model::{Refusal, Totals};

// Reads a line. (The Rust's `deserialize_from`.)
pub fn read(line: &[u8]) -> Result<Contents, Refusal>
    ensures { Reads (read_line line.now) result }
{
    if line.len() == 0 {
        return Err(Refusal::EmptyLine);
    }
    if !is_hex(line) {
        return Err(Refusal::NotHex);
    }
    let kind = Kind::try_from(number(line, 0, 1))?;
    read_entries(line, kind)
}

// Reads the entries behind a header.
fn read_entries(line: &[u8], kind: Kind) -> Result<Contents, Refusal>
    requires digits { is_hex line.now ≡ true }
    requires some { 2 ≤ length line.now }
    ensures { Reads (rest_of kind (drop 1 (pairs line.now))) result }
{
    let rest = line.len() / 2 - 1;
    let w = width(kind);
    if rest % w != 0 {
        return Err(Refusal::PartOfAnEntry);
    }
    let n = rest / w;
    if 32 < n {
        return Err(Refusal::TooManyEntries);
    }
    let contents = entries_in(line, kind, n);
    if !ascending(contents) {
        return Err(Refusal::KeysNotAscending);
    }
    Ok(contents)
}

// The first `n` entries of a line.
fn entries_in(line: &[u8], kind: Kind, n: usize) -> Contents
    requires digits { is_hex line.now ≡ true }
    requires few { n ≤ 32 }
    requires within { 2 * start_of kind n ≤ length line.now }
    ensures { result ≡ held kind (entries_in kind n (drop 1 (pairs line.now))) }
{
    let mut entries = [no_entry(); 32];
    for i in 0..n {
        entries[i] = entry_at(line, kind, i);
    }
    Contents {
        kind,
        count: n,
        entries,
    }
}

// Entry `i` of a line.
fn entry_at(line: &[u8], kind: Kind, i: usize) -> FrameEntry
    requires digits { is_hex line.now ≡ true }
    requires few { i < 32 }
    requires within { 2 * start_of kind (i + 1) ≤ length line.now }
    ensures { result ≡ entry_in kind (drop (start_of kind i) (pairs line.now)) }
{
    let a = start_of(kind, i);
    match kind {
        Kind::Leaf => leaf_entry_at(line, a),
        Kind::Interior => branch_at(line, a),
    }
}

fn leaf_entry_at(line: &[u8], a: usize) -> FrameEntry
    requires digits { is_hex line.now ≡ true }
    requires within { 2 * (a + 20) ≤ length line.now }
    ensures { result ≡ entry_in Leaf (drop a (pairs line.now)) }
{
    let key = number(line, a, 8);
    let place = number(line, a + 8, 8);
    let size = number(line, a + 16, 4) as u32;
    leaf_entry(key, place, size)
}

fn branch_at(line: &[u8], a: usize) -> FrameEntry
    requires digits { is_hex line.now ≡ true }
    requires within { 2 * (a + 28) ≤ length line.now }
    ensures { result ≡ entry_in Interior (drop a (pairs line.now)) }
{
    let key = number(line, a, 8);
    let child = number(line, a + 8, 4) as u32;
    let live = number(line, a + 12, 4) as u32;
    let dead = number(line, a + 16, 4) as u32;
    let size = number(line, a + 20, 8);
    branch(key, child, Totals { live, dead, size })
}
