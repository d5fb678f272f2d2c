// The lines that `trial_replay` replays: their numbers, the calls and answers that these stand for, and what is told of them.
// Nothing here calls the index.
#![tactic(auto)]

pub mod kind; // the kinds of lines
pub mod line; // bytes to the numbers of a line, and to what it says
pub mod form; // calls by their kinds and arguments
pub mod pools; // turns, and which of two pools is at hand
pub mod told; // answers as a line has them
pub mod cases; // the case or reading at hand, and whether it holds
pub mod tally; // how many calls of each kind were answered otherwise
