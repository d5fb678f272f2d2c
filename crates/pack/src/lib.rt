// The packed tree of a pool's entries, built in the slots of another pool, node by node in preorder. The source is read by rank, so that no account
// of the way through it is kept, and every entry is copied once.
#![tactic(auto)]

ghost use Rattle.std.specs.Prelude.{◌≡◌, suc, ◌-◌, ◌<◌};
ghost use Rattle.words.specs.Words.{words};
ghost use Rattle.slots.specs.Nodes.{nodes, nth};
ghost use Rattle.slots.specs.Promises.{NodesPut};
ghost use Rattle.pack.specs.Build.{entries_in, tree_for, bare, hung};
ghost use Rattle.pack.specs.Promises.{ToBuild, ToFill, ToHang, Built, Filled};

use model::Settings;
use pack_plan::capacity;
use slots_copy::append_rows;
use tree_node::weigh;
use tree_rank::spot_of;

// What is known of the pool that is packed: its settings, and the height of its tree.
#[derive(Clone, Copy)]
pub struct Source {
    pub settings: Settings,
    pub height: usize,
}

// A tree to be built: its height, the slot of its root and the first one of its other nodes; and the entries that it takes, how many and from which
// rank on.
#[derive(Clone, Copy)]
pub struct Piece {
    pub height: usize,
    pub slot: usize,
    pub next: usize,
    pub from: usize,
    pub count: usize,
}

// Builds a tree over entries of the source. The answer is the first slot behind its nodes.
#[cycle(build_build_children)]
pub fn build(pool: &mut [u8], st: Settings, source: &[u8], known: Source, piece: Piece) -> usize
    requires { ToBuild st (words pool.old) known (words source.now) piece.height piece }
    ensures { let es = entries_in known (words source.now) in
        Built st (words pool.old) (words pool.new) piece.height (tree_for st es piece.height piece) piece.next result }
{
    let kind = tree::kind_for(piece.height);
    slots::set_kind(pool, st, piece.slot, kind);
    if piece.height == 0 {
        fill_leaf(pool, st, source, known, piece);
        return piece.next;
    }
    build_children(pool, st, source, known, piece)
}

// Builds an interior, child by child: each takes as many entries as it can hold, and the last one what is left.
#[cycle(build_build_children)]
fn build_children(
    pool: &mut [u8],
    st: Settings,
    source: &[u8],
    known: Source,
    piece: Piece,
) -> usize
    requires interior { 0 < piece.height }
    requires asked { ToBuild st (words pool.old) known (words source.now) (suc (piece.height - 1)) piece }
    requires begun { nth (nodes st (words pool.old)) piece.slot ≡ bare (suc (piece.height - 1)) }
    ensures { let es = entries_in known (words source.now) in
        let h = suc (piece.height - 1) in
        Built st (words pool.old) (words pool.new) h (tree_for st es h piece) piece.next result }
{
    let below = piece.height - 1;
    let most = capacity(st.order, below);
    let mut next = piece.next;
    let mut taken = 0;
    let mut i = 0;
    while taken < piece.count {
        let child = Piece {
            height: below,
            slot: next,
            next: next + 1,
            from: piece.from + taken,
            count: most.min(piece.count - taken),
        };
        next = build(pool, st, source, known, child);
        hang(pool, st, below, piece.slot, i, child.slot);
        taken += child.count;
        i += 1;
    }
    next
}

// Puts the row of node `child`, of height `below`, in at the end of node `s`, which has `i` rows.
fn hang(pool: &mut [u8], st: Settings, below: usize, s: usize, i: usize, child: usize)
    requires { ToHang st (words pool.old) below s i child }
    ensures { let W = words pool.old in NodesPut st W (words pool.new) (hung (nodes st W) below s child) }
{
    let row = weigh(pool, st, below, child);
    slots::insert_row(pool, st, s, i, row);
}

// Fills a leaf with entries of the source, as many at a time as stand side by side in a leaf there.
fn fill_leaf(pool: &mut [u8], st: Settings, source: &[u8], known: Source, piece: Piece)
    requires { ToFill st (words pool.old) known (words source.now) piece }
    ensures { Filled st (words pool.old) (words pool.new) piece.slot (entries_in known (words source.now))
        piece.from piece.count }
{
    let theirs = known.settings;
    let mut taken = 0;
    while taken < piece.count {
        let spot = spot_of(
            source,
            theirs,
            known.height,
            theirs.root,
            piece.from + taken,
        );
        let side_by_side = slots::count(source, theirs, spot.leaf) - spot.row;
        let n = side_by_side.min(piece.count - taken);
        append_rows(pool, st, piece.slot, source, theirs, spot.leaf, spot.row, n);
        taken += n;
    }
}
