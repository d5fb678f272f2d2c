// The numbers of a packed tree, known before anything is written: how much a tree can hold, how high it must be, and how many nodes it has.
#![tactic(auto)]

ghost use Rattle.std.specs.Prelude.{◌≡◌, ◌≤◌};
ghost use Rattle.model_pack.specs.Pack as pack;
ghost use Rattle.pack_plan.specs.Promises.{ToMeasure, ToCount, Counted};

// How many entries a tree of this order and height can hold.
pub fn capacity(order: usize, height: usize) -> usize
    requires { ToMeasure order height }
    ensures { result ≡ pack.capacity order height }
{
    let mut most = order;
    for _h in 0..height {
        most = order * most;
    }
    most
}

// The least height whose trees can hold `n` entries, 7 at most.
pub fn height_for(order: usize, n: usize) -> usize
    requires { order ≤ 32 }
    ensures { result ≡ pack.height_for order n }
{
    let mut most = order;
    for height in 0..7 {
        if n <= most {
            return height;
        }
        most = order * most;
    }
    7
}

// How many nodes the packed tree of `n` entries has: a dry run of its building.
pub fn nodes_for(order: usize, height: usize, n: usize) -> usize
    requires { ToCount order height n }
    ensures { Counted order height n result }
{
    let mut nodes = 1;
    if height == 0 {
        return nodes;
    }
    let most = capacity(order, height - 1);
    let mut left = n;
    while left > 0 {
        let piece = most.min(left);
        nodes += nodes_for(order, height - 1, piece);
        left -= piece;
    }
    nodes
}
