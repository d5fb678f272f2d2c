// Frames of a pool: a node as one line of lower-case hexadecimal, found by its number in preorder and written.
//
// A frame's bytes are a header, 1 for a leaf and 0 for an interior, and its entries: 20 bytes each in a leaf (key 8, place 8, size 4),
// 28 in an interior (key 8, child number 4, live 4, dead 4, size sum 8), big-endian.
#![tactic(auto)]

mod node; // a pool's node to a line
mod preorder; // the walk over a pool's slots

pub use node::write_node;

// Where a walk stops: at a node, with its slot and height.
#[derive(Clone, Copy)]
pub struct Stop {
    pub slot: usize,
    pub height: usize,
}
