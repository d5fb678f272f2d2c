// A pool as a whole: its header, a new pool, and what is blank in any pool.
#![tactic(auto)]

mod header; // the settings of a pool, and a new pool
mod blanks; // blank rows and slots

pub use blanks::{slot_zero, tail_zero};
pub use header::{layout, open_pool, reserved_zero, settings};

// The number of the layout that is described here: the first word of a header.
pub const LAYOUT: u64 = 2;
