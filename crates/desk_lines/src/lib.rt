// The lines of a text: the next one, and one that comes in parts.
#![tactic(auto)]

mod line; // the next line, a part of the text
mod parts; // a line that comes in parts

pub use line::{find, next_line};
pub use parts::{LONGEST, keep};
