// What a frame is by value, and how a line spells it: a node's kind and entries, numbers as hexadecimal digits.
#![tactic(auto)]

use model::{Reference, Totals};

mod entries; // a kind and entries by value
mod digits; // numbers as hexadecimal digits

pub use digits::{is_hex, number, put_number, value_of};
pub use entries::{ascending, branch, leaf_entry, no_entry, start_of, width};

#[derive(Clone, Copy)]
pub enum Kind {
    Leaf,
    Interior,
}

// An entry of a frame. A leaf's has a key and a reference; an interior's has a separator, the child's number in preorder, and the child's
// totals. What its kind has not is not written, and read as zero.
#[derive(Clone, Copy)]
pub struct FrameEntry {
    pub key: u64,
    pub reference: Reference,
    pub child: u32,
    pub totals: Totals,
}

// A kind and entries. A frame that was read has zeros past the count. (No vector of at most 32: a caller may give a greater count, and `write` refuses it.)
#[derive(Clone, Copy)]
pub struct Contents {
    pub kind: Kind,
    pub count: usize,
    pub entries: [FrameEntry; 32],
}
