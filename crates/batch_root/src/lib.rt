// What becomes of the root: one that is too long is split, one with a lone child gives way to it. It stays in its slot.
#![tactic(auto)]

mod grow; // a root that is too long becomes the parent of its two halves
mod shrink; // a root with one child gives way to it

pub use grow::split_root;
pub use shrink::collapse;
use tree_spare::Spare;

// How high the root is, and the unused slots.
#[derive(Clone, Copy)]
pub struct Root {
    pub height: usize,
    pub spare: Spare,
}
