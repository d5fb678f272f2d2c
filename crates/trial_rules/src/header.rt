// The rules of the words before the first slot: layout, nodes; order, minimum and a zero of tree 0; the same of tree 1.
use crate::{Shape, larger, slot_word};
use trial::word;

// Layout and nodes stay: the nodes are told by the pool's length. Two words stay zero.
pub fn header_allows(pool: &[u8], of: Shape, i: usize, v: u64) -> bool {
    match i {
        2 => order_allows(pool, of, 0, of.second, v),
        3 => minimum_allows(of.first as u64, v),
        5 => order_allows(pool, of, 1, of.first, v),
        6 => minimum_allows(of.second as u64, v),
        _ => false,
    }
}

// A minimum may become any that half of the nodes' entries reach.
fn minimum_allows(order: u64, v: u64) -> bool {
    order <= 32 && 1 <= v && v <= (order + 1) / 2
}

// An order, where `other` is that of the other tree. The larger one is told by the pool's length. An order that may become another one keeps the
// minimum in limits, and no node of its tree has more entries.
fn order_allows(pool: &[u8], of: Shape, tree: usize, other: usize, v: u64) -> bool {
    if v < 4 || v > 32 {
        return false;
    }
    let changed = Shape {
        nodes: of.nodes,
        first: v as usize,
        second: other,
    };
    larger(changed) == larger(of)
        && minimum_allows(v, minimum_of(pool, tree))
        && !(0..of.nodes).any(|s| has_more(pool, of, tree, s, v))
}

fn minimum_of(pool: &[u8], tree: usize) -> u64 {
    if tree == 0 {
        word(pool, 3)
    } else {
        word(pool, 6)
    }
}

// Whether a slot is a node of this tree with more entries.
fn has_more(pool: &[u8], of: Shape, tree: usize, s: usize, v: u64) -> bool {
    is_node_of(tree, slot_word(pool, of, s, 0)) && slot_word(pool, of, s, 1) > v
}

// The kinds of tree 0 are 1 and 2, those of tree 1 are 3 and 4.
fn is_node_of(tree: usize, kind: u64) -> bool {
    if tree == 0 {
        kind == 1 || kind == 2
    } else {
        kind == 3 || kind == 4
    }
}
