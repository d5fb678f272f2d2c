// The row of a changed child in its parent made new, and an over-full child shared out or split.
#![tactic(auto)]

pub mod renew; // the row of a child in its parent
mod share; // an over-full child is shared out or split

pub use share::share_out;
use tree_spare::Spare;

// A child, by where it stands: its height, the slot of its parent, and its row there.
#[derive(Clone, Copy)]
pub struct Child {
    pub height: usize,
    pub parent: usize,
    pub row: usize,
}

// The child from which a walk goes on, and the unused slots.
#[derive(Clone, Copy)]
pub struct Standing {
    pub at: usize,
    pub spare: Spare,
}
