// A kind and entries by value.
ghost use Rattle.std.specs.Prelude.{◌≡◌, ◌≤◌};
ghost use Rattle.model.specs.Frame.{keys_of, rising};
ghost use Rattle.frame_text.specs.Contents.{no_entry, of_entry, of_branch, frame_of};
ghost use Rattle.frame_text.specs.Entries.{header_of, Heads, width_of, start_of};

use crate::{Contents, FrameEntry, Kind};
use model::{Reference, Refusal, Totals};

// Whether the keys ascend strictly.
pub fn ascending(contents: Contents) -> bool
    requires { contents.count ≤ 32 }
    ensures { result ≡ rising (keys_of (frame_of contents)) }
{
    let n = contents.count;
    let entries = contents.entries;
    for i in 1..n {
        let low = entries[i - 1];
        let high = entries[i];
        if high.key <= low.key {
            return false;
        }
    }
    true
}

// A place that holds no entry.
pub fn no_entry() -> FrameEntry
    ensures { result ≡ no_entry }
{
    leaf_entry(0, 0, 0)
}

// An entry of a leaf, and one of an interior.
pub fn leaf_entry(key: u64, place: u64, size: u32) -> FrameEntry
    ensures { result ≡ of_entry (record { key = key; place = place; size = size }) }
{
    FrameEntry {
        key,
        reference: Reference { place, size },
        child: 0,
        totals: model_code::no_totals(),
    }
}

pub fn branch(key: u64, child: u32, totals: Totals) -> FrameEntry
    ensures { result ≡ of_branch (record { key = key; child = child; totals = totals }) }
{
    FrameEntry {
        key,
        reference: Reference { place: 0, size: 0 },
        child,
        totals,
    }
}

// The first byte of a frame.
impl From<Kind> for u64 {
    ghost from_gives = { λ k n. n ≡ header_of k };

    fn from(kind: Kind) -> u64 {
        match kind {
            Kind::Leaf => 1,
            Kind::Interior => 0,
        }
    }
}

// The kind that a first byte says.
impl TryFrom<u64> for Kind {
    type Error = Refusal;

    ghost try_from_gives = { Heads };

    fn try_from(header: u64) -> Result<Kind, Refusal> {
        match header {
            1 => Ok(Kind::Leaf),
            0 => Ok(Kind::Interior),
            _ => Err(Refusal::UnknownHeader),
        }
    }
}

// How many bytes an entry has.
pub fn width(kind: Kind) -> usize
    ensures { (result ≡ width_of kind) × (20 ≤ result) }
{
    match kind {
        Kind::Leaf => 20,
        Kind::Interior => 28,
    }
}

// The byte at which entry `i` starts.
pub fn start_of(kind: Kind, i: usize) -> usize
    requires { i ≤ 32 }
    ensures { (result ≡ start_of kind i) × (result ≤ 897) }
{
    match kind {
        Kind::Leaf => 1 + 20 * i,
        Kind::Interior => 1 + 28 * i,
    }
}
