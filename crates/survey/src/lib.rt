// The soundness test of a pool: of any bytes whether they are a sound pool.
//
// It takes no memory but the stack's, on which the walk is at most eight nodes deep, and it ends at the first fault. First come the
// header and the length, then a pass over the slots, which counts those in use, then a walk over each tree from its root.
//
// No bytes take it longer than a sound pool of their length takes. The pass reads a slot in use at its first word only. The walks may
// open as many nodes as there are slots in use, and each is charged when it is opened. So whatever the rows name, be it one child
// twice, the root again or a node of another level, they open no more nodes than the pool has. A count is tested before a row
// is read: of a node that says it has more rows than order, none is. And for each row of an interior that is opened one word is read
// of the child that it names.
//
// That each node is reached once needs no marks. Within a tree a slot shows a key, the first one below it; a slot reached twice would show
// it twice, and the keys must ascend. Two trees reach no slot both, since a node's kind says of which tree it is. The nodes reached are
// then as many as the slots in use, so every one of these is reached.
#![tactic(auto)]

ghost use Rattle.std.specs.Prelude.{◌≡◌};
ghost use Rattle.model.specs.Answer.{Tells};
ghost use Rattle.survey.specs.Promises.{Surveyed, Headed};

mod spares; // the pass over the slots
mod walk; // the walk over a tree

use model::PoolSettings;
use spares::survey_slots;
use tree_spare::Spare;
use walk::{left_edge, walk_tree};

// What a survey finds of a sound pool: its settings, the heights of its two trees, and its unused slots.
#[derive(Clone, Copy)]
pub struct Findings {
    pub given: PoolSettings,
    pub first: usize,
    pub second: usize,
    pub spare: Spare,
}

// Surveys any bytes. Where they are no sound pool, nothing is found.
pub fn survey(pool: &[u8]) -> Option<Findings>
    ensures { Surveyed pool.now result }
{
    if !header_right(pool) {
        return None;
    }
    let given = slots_pool::settings(pool);
    let st = model_code::handed(given, 0);
    let spare = survey_slots(pool, st)?;
    let first = left_edge(pool, st);
    let left = walk_tree(pool, st, first, given.nodes - spare.unused)?;
    let su = model_code::handed(given, 1);
    let second = left_edge(pool, su);
    let unreached = walk_tree(pool, su, second, left)?;
    let found = Findings {
        given,
        first,
        second,
        spare,
    };
    (unreached == 0).then_some(found)
}

// Whether header and length are those of a sound pool.
fn header_right(pool: &[u8]) -> bool
    ensures { Tells result (Headed pool.now) }
{
    if pool.len() < 8 * slots_raw::HEADER {
        return false;
    }
    if slots_pool::layout(pool) != slots_pool::LAYOUT {
        return false;
    }
    if !slots_pool::reserved_zero(pool) {
        return false;
    }
    let given = slots_pool::settings(pool);
    if !tree::in_limits(given) {
        return false;
    }
    pool.len() == tree::pool_len(given)
}
