// What a line asks for.
#![tactic(auto)]

mod read; // what a line asks for

pub use read::read_order;

// What a line asks for: so many rows are set, so many keys dropped, all frames shown. (No Option for a malformed line: its numbers are told like those of
// any other, all zero.)
#[derive(Clone, Copy)]
pub enum Order {
    Set(usize),
    Drop(usize),
    Dump,
    Malformed,
}

// An order and its numbers, with zeros past them. A line of 255 bytes has no room for more.
#[derive(Clone, Copy)]
pub struct Reading {
    pub order: Order,
    pub keys: [u64; 128],
    pub places: [u64; 128],
    pub sizes: [u32; 128],
}
