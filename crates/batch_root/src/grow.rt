// A root that is too long becomes the parent of its two halves, which take new slots. So the root stays in its slot.
ghost use Rattle.words.specs.Words.{words};
ghost use Rattle.slots.specs.Nodes.{nodes};
ghost use Rattle.slots.specs.Promises.{NodesPut};
ghost use Rattle.batch_root.specs.Promises.{ToSplitRoot, Halved, ToMove, ToCrown};
ghost use Rattle.batch_root.specs.Roots.{moved, crowned};

use model::Settings;
use model_code::half;
use slots::INTERIOR;
use tree_node::weigh;
use tree_spare::{Spare, after_taking};

// Splits the root: the lower half takes the lowest unused slot, the upper half the next. The answer is what is unused then. (The Rust's
// `split_root`.)
pub fn split_root(pool: &mut [u8], st: Settings, height: usize, spare: Spare) -> Spare
    requires { ToSplitRoot st (words pool.old) height spare }
    ensures { Halved st (words pool.old) (words pool.new) height result }
{
    move_root(pool, st, spare.low);
    let rest = after_taking(pool, st, spare);
    let n = slots::count(pool, st, spare.low);
    let keep = half(n);
    slots_pair::split(pool, st, spare.low, rest.low, keep);
    crown(pool, st, height, spare.low, rest.low);
    after_taking(pool, st, rest)
}

// Moves the rows of the root to a new node of its kind, in the lowest unused slot.
fn move_root(pool: &mut [u8], st: Settings, low: usize)
    requires { ToMove st (words pool.old) low }
    ensures { let W = words pool.old in NodesPut st W (words pool.new) (moved st.root (nodes st W) low) }
{
    let k = slots::kind(pool, st, st.root);
    let n = slots::count(pool, st, st.root);
    slots::set_kind(pool, st, low, k);
    slots_pair::share_back(pool, st, low, st.root, n);
}

// Makes the root, which has no rows left, the parent of two nodes of this height.
fn crown(pool: &mut [u8], st: Settings, height: usize, lower: usize, upper: usize)
    requires { ToCrown st (words pool.old) height lower upper }
    ensures { let W = words pool.old in
        NodesPut st W (words pool.new) (crowned st.root (nodes st W) height lower upper) }
{
    let a = weigh(pool, st, height, lower);
    let b = weigh(pool, st, height, upper);
    slots::set_kind(pool, st, st.root, INTERIOR);
    slots::insert_row(pool, st, st.root, 0, a);
    slots::insert_row(pool, st, st.root, 1, b);
}
