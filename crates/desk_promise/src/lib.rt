// What the desk's functions answer, as values, and the tree that they keep to; what they promise, and what the program writes, stands in specs/.
#![tactic(auto)]

// The desk keeps to one tree of its pool.
pub const TREE: usize = 0;

// How many bytes of the text were taken, how many are kept of the line, and how long the answer is: 0 where the line goes on.
#[derive(Clone, Copy)]
pub struct Taken {
    pub bytes: usize,
    pub kept: usize,
    pub count: usize,
}
