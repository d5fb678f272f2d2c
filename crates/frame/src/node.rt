// Writing a frame from a pool.
ghost use Rattle.std.specs.Prelude.{◌≡◌, ◌≤◌, ◌<◌, length, get_or};
ghost use Rattle.words.specs.Words.{words};
ghost use Rattle.slots_raw.specs.Slots.{blank};
ghost use Rattle.slots.specs.Nodes.{nodes, rows_at};
ghost use Rattle.model.specs.Frame.{write_node, nodes_in};
ghost use Rattle.tree.specs.Bridge.{tree_at};
ghost use Rattle.tree.specs.Pool.{index_of};
ghost use Rattle.tree.specs.Promises.{InPool};
ghost use Rattle.frame_text.specs.Contents.{contents_of};
ghost use Rattle.frame_text.specs.Answers.{Writes};
ghost use Rattle.frame.specs.Promises.{ToFind};
ghost use Rattle.frame.specs.Frames.{item_at, kind_at, entry_for, frame_at};

use crate::preorder::{find, nodes_in};
use frame_text::{Contents, FrameEntry, Kind, branch, leaf_entry, no_entry};
use frame_write::put_frame;
use model::{Refusal, Settings};
use slots_raw::Row;
use std::ops::ControlFlow;
use tree_node::child_at;

// Writes the frame of node `i` in preorder, and answers its length. The settings and the height are the pool's own.
pub fn write_node(
    pool: &[u8],
    st: Settings,
    height: usize,
    i: usize,
    line: &mut [u8],
) -> Result<usize, Refusal>
    requires { InPool pool.now st height }
    ensures { Writes (write_node i (length line.old) (index_of pool.now st.root)) line.old result line.new }
{
    match find(pool, st, height, st.root, i) {
        ControlFlow::Break(node) => {
            let contents = contents_at(pool, st, node.height, node.slot, i);
            put_frame(contents, line)
        }
        ControlFlow::Continue(_) => Err(Refusal::NoSuchNode),
    }
}

// Kind and entries of node `i` in preorder, which is in slot `s` and has the height `height`.
fn contents_at(pool: &[u8], st: Settings, height: usize, s: usize, i: usize) -> Contents
    requires stands { ToFind st (words pool.now) height s }
    requires low { i ≤ 16384 }
    ensures { result ≡ contents_of (frame_at height i (tree_at (nodes st (words pool.now)) height s)) }
{
    let n = slots::count(pool, st, s);
    let mut entries = [no_entry(); 32];
    let mut child = i + 1;
    for j in 0..n {
        let row = slots::row_at(pool, st, s, j);
        entries[j] = entry_for(row, height, child);
        child += nodes_under(pool, st, height, s, j);
    }
    Contents {
        kind: kind_at(height),
        count: n,
        entries,
    }
}

fn kind_at(height: usize) -> Kind
    ensures { result ≡ kind_at height }
{
    if height == 0 {
        return Kind::Leaf;
    }
    Kind::Interior
}

// The frame's entry of a row; a child has the number `child`.
fn entry_for(row: Row, height: usize, child: usize) -> FrameEntry
    requires numbered { child < 4294967296 }
    requires sized { height ≡ 0 → row.size < 4294967296 }
    ensures { result ≡ entry_for height row child }
{
    if height == 0 {
        let e = tree_rows::entry_of(row);
        return leaf_entry(e.key, e.place, e.size);
    }
    branch(row.key, child as u32, tree_rows::child_totals(row))
}

// How many nodes row `j` stands for: those of a child, and none in a leaf.
fn nodes_under(pool: &[u8], st: Settings, height: usize, s: usize, j: usize) -> usize
    requires stands { ToFind st (words pool.now) height s }
    requires within { j < length (rows_at st (words pool.now) s) }
    ensures { result ≡ nodes_in height (item_at (nodes st (words pool.now)) height
        (get_or (rows_at st (words pool.now) s) j blank)) }
{
    if height == 0 {
        return 0;
    }
    let child = child_at(pool, st, s, j);
    nodes_in(pool, st, height - 1, child)
}
