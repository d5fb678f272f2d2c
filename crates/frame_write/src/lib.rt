// Writing a frame from a kind and entries.
#![tactic(auto)]

ghost use Rattle.std.specs.Prelude.{◌≡◌, ◌+◌, ◌*◌, ◌≤◌, ◌<◌, length};
ghost use Rattle.model.specs.Frame.{leaf_bytes, branch_bytes, fitted, line_of, write_frame};
ghost use Rattle.frame_text.specs.Contents.{frame_of, entry_of, branch_of};
ghost use Rattle.frame_text.specs.Answers.{Writes};
ghost use Rattle.frame_text.specs.Digits.{spelled};
ghost use Rattle.frame_text.specs.Entries.{start_of, width_of, code_of};

use frame_text::{Contents, FrameEntry, Kind, ascending, put_number, start_of};
use model::Refusal;

// Writes the frame of a kind and entries, and answers its length. (The Rust's `serialize_to`.)
pub fn write(contents: Contents, line: &mut [u8]) -> Result<usize, Refusal>
    ensures { Writes (write_frame (length line.old) (frame_of contents)) line.old result line.new }
{
    if 32 < contents.count {
        return Err(Refusal::TooManyEntries);
    }
    if !ascending(contents) {
        return Err(Refusal::KeysNotAscending);
    }
    put_frame(contents, line)
}

// Writes the frame if the line has room for it.
pub fn put_frame(contents: Contents, line: &mut [u8]) -> Result<usize, Refusal>
    requires { contents.count ≤ 32 }
    ensures { Writes (fitted (length line.old) (line_of (frame_of contents))) line.old result line.new }
{
    let kind = contents.kind;
    let n = contents.count;
    let entries = contents.entries;
    let end = 2 * start_of(kind, n);
    if line.len() < end {
        return Err(Refusal::LineTooShort);
    }
    put_number(line, 0, kind.into(), 1);
    for i in 0..n {
        put_entry(line, kind, i, entries[i]);
    }
    Ok(end)
}

// Writes entry `i`.
fn put_entry(line: &mut [u8], kind: Kind, i: usize, e: FrameEntry)
    requires few { i < 32 }
    requires within { 2 * start_of kind (i + 1) ≤ length line.old }
    ensures { line.new ≡ spelled line.old (start_of kind i) (width_of kind) (code_of kind e) }
{
    let a = start_of(kind, i);
    match kind {
        Kind::Leaf => put_leaf_entry(line, a, e),
        Kind::Interior => put_branch(line, a, e),
    }
}

fn put_leaf_entry(line: &mut [u8], a: usize, e: FrameEntry)
    requires { 2 * (a + 20) ≤ length line.old }
    ensures { line.new ≡ spelled line.old a 20 (leaf_bytes (entry_of e)) }
{
    let r = e.reference;
    put_number(line, a, e.key, 8);
    put_number(line, a + 8, r.place, 8);
    put_number(line, a + 16, r.size as u64, 4);
}

fn put_branch(line: &mut [u8], a: usize, e: FrameEntry)
    requires { 2 * (a + 28) ≤ length line.old }
    ensures { line.new ≡ spelled line.old a 28 (branch_bytes (branch_of e)) }
{
    let t = e.totals;
    put_number(line, a, e.key, 8);
    put_number(line, a + 8, e.child as u64, 4);
    put_number(line, a + 12, t.live as u64, 4);
    put_number(line, a + 16, t.dead as u64, 4);
    put_number(line, a + 20, t.size, 8);
}
