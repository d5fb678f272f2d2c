// The entry of a given rank: where the entries of a tree stand, counted from 0 over the whole tree. An interior's row stores how many
// entries its child has, so one way down leads there, and no leaf before it is read.
#![tactic(auto)]

ghost use Rattle.std.specs.Prelude.{◌≡◌, suc};
ghost use Rattle.words.specs.Words.{words};
ghost use Rattle.slots.specs.Nodes.{nodes, rows_at};
ghost use Rattle.model.specs.Tree.{entries};
ghost use Rattle.tree.specs.Bridge.{tree_at};
ghost use Rattle.tree_rank.specs.Rank.{weight};
ghost use Rattle.tree_rank.specs.Promises.{ToStep, Stepped, ToSpot, Spotted};

use model::Settings;
use slots_raw::Row;
use tree_rows::{child_of, child_totals};

// Where an entry stands: its leaf's slot, and its row there.
#[derive(Clone, Copy)]
pub struct Spot {
    pub leaf: usize,
    pub row: usize,
}

// A step down to an entry: the slot of the child that has it, and its rank there.
#[derive(Clone, Copy)]
struct Step {
    child: usize,
    rank: usize,
}

// Where entry `r` of the tree of height `height` in slot `s` stands, counted from 0: down from the root, past the children whose entries
// all come before it.
pub fn spot_of(pool: &[u8], st: Settings, height: usize, s: usize, r: usize) -> Spot
    requires { ToSpot st (words pool.now) height s r }
    ensures { let W = words pool.now in Spotted st W (entries (suc height) (tree_at (nodes st W) height s)) r result }
{
    let mut leaf = s;
    let mut row = r;
    for _h in (0..height).rev() {
        let step = step_to(pool, st, leaf, row);
        leaf = step.child;
        row = step.rank;
    }
    Spot { leaf, row }
}

// The child of the interior node `s` that has entry `r`: the first whose entries do not all come before it.
fn step_to(pool: &[u8], st: Settings, s: usize, r: usize) -> Step
    requires { ToStep st (words pool.now) s r }
    ensures { Stepped (rows_at st (words pool.now) s) r result }
{
    let mut rank = r;
    let mut i = 0;
    // no `for`: one child has the entry (`ToStep`), and behind the last row there would have to be an answer that never comes
    loop {
        let row = slots::row_at(pool, st, s, i);
        let n = entries_in(row);
        if rank < n {
            let child = child_of(row);
            return Step { child, rank };
        }
        rank -= n;
        i += 1;
    }
}

// How many entries the child of an interior's row has, dead ones too.
fn entries_in(row: Row) -> usize
    ensures { result ≡ weight row }
{
    let t = child_totals(row);
    t.live as usize + t.dead as usize
}
