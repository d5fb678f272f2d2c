// The calls by their kinds and arguments, and their answers. There are two pools, and "the pool" is the one at hand.
//
// | kind | arguments | answers when done |
// |---|---|---|
// | 1 open | nodes, order and minimum of tree 0, order and minimum of tree 1, bytes lent | check of the pool |
// | 2 totals | tree | live, dead, size |
// | 3 set | tree, place, size, keys | four counts, check of the pool |
// | 4 set each | tree, keys, places, sizes | four counts, check of the pool |
// | 5 remove | tree, keys | four counts, check of the pool |
// | 6 compare | tree, holds, expected place and size, set, place and size, keys | four counts, check of the pool |
// | 7 get | tree, bytes of room, keys | written, more, check of the output written |
// | 8 scan | tree; start: bounded, included, key; end: the same; down, least, bytes of room | written, more, opened, check of the output |
// | 9 frame | tree, i, bytes of room | length, check of the line |
// | 10 read frame | bytes of the line | kind, count, check of its entries |
// | 11 put | word, value: the pool is damaged, or written by hand | check of the pool |
// | 12 case | n: what follows is numbered case n | none, not even 0: it is no call |
// | 13 reading | n: what follows is reading n | the same |
// | 14 pack | none: the pool is packed into the other one | check of the other pool |
// | 15 turn | none: the other pool is at hand from here on | none, not even 0: it is no call |
// | 16 portion | tree; start: bounded, included, key; end: the same; least, bytes of room | written, more, opened, ended, check of the output and |
// |  |  | of the next start as three words: bounded, included, key |
//
// What is read from a frame must be the same line when it is written again.
//
// A list among the arguments is its length and then its numbers. Before the answers stands 0, or else the number of a refusal and nothing
// but, where a pool is lent for change, its check.
use crate::kind::Kind;
use crate::line::list;
use trial::{at, plus};

// A size has 32 bits.
const SIZES: u64 = 0x1_0000_0000;

// Whether a call of this kind has such arguments.
pub fn formed(kind: Kind, args: &[u64]) -> bool {
    let n = args.len();
    let behind = behind_tree(args);
    match kind {
        Kind::Open => n == 6,
        Kind::Totals => n == 1,
        Kind::Set => ends(behind, 2) && at(behind, 1) < SIZES,
        Kind::SetEach => ends(behind, third(behind)) && below(list(behind, third(behind)), SIZES),
        Kind::Remove => ends(behind, 0),
        Kind::Compare => ends(behind, 6) && at(behind, 2) < SIZES && at(behind, 5) < SIZES,
        Kind::Get => ends(behind, 1),
        Kind::Scan => n == 10 && at(behind, 7) < SIZES,
        Kind::Frame => n == 3,
        Kind::ReadFrame => ends(args, 0) && below(list(args, 0), 256),
        Kind::Put => n == 2,
        Kind::Pack => n == 0,
        Kind::Portion => n == 9 && at(behind, 6) < SIZES,
        Kind::Case | Kind::Reading | Kind::Turn => false,
    }
}

// The arguments of a call on one tree, behind the number of the tree.
pub fn behind_tree(args: &[u64]) -> &[u64] {
    args.get(1..).unwrap_or(args)
}

// The arguments end where the list at i does.
fn ends(args: &[u64], i: usize) -> bool {
    plus(plus(i, 1), at(args, i) as usize) == args.len()
}

// All numbers are less than the limit.
fn below(numbers: &[u64], limit: u64) -> bool {
    numbers.iter().all(|n| *n < limit)
}

// Where the second list of a set each begins, and the third.
pub fn second(args: &[u64]) -> usize {
    plus(1, at(args, 0) as usize)
}

pub fn third(args: &[u64]) -> usize {
    let i = second(args);
    plus(plus(i, 1), at(args, i) as usize)
}

// A number that is known to have 32 bits.
pub fn size(n: u64) -> u32 {
    (n % SIZES) as u32
}
