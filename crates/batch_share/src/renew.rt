// The row by which a child stands in its parent, made new; and how long a child is.
ghost use Rattle.std.specs.Prelude.{◌≡◌};
ghost use Rattle.words.specs.Words.{words};
ghost use Rattle.slots.specs.Nodes.{nodes};
ghost use Rattle.slots.specs.Promises.{NodesPut};
ghost use Rattle.model.specs.Tree.{len};
ghost use Rattle.batch_share.specs.Children.{child_at, renewed, renewed_two};
ghost use Rattle.batch_share.specs.Promises.{ToName, ToRenew, ToRenewTwo};

use crate::Child;
use model::Settings;
use tree_node::{child_at, weigh};

// The rows of a child and of the next one become those of nodes `p` and `c`.
pub fn renew_two(pool: &mut [u8], st: Settings, at: Child, p: usize, c: usize)
    requires { ToRenewTwo st (words pool.old) at.height at.parent at.row p c }
    ensures { let W = words pool.old in
        NodesPut st W (words pool.new) (renewed_two (nodes st W) at.height at.parent at.row p c) }
{
    renew(pool, st, at, p);
    let next = Child {
        row: at.row + 1,
        ..at
    };
    renew(pool, st, next, c);
}

// The row of a child becomes that of node `c`.
pub fn renew(pool: &mut [u8], st: Settings, at: Child, c: usize)
    requires { ToRenew st (words pool.old) at.height at.parent at.row c }
    ensures { let W = words pool.old in NodesPut st W (words pool.new) (renewed (nodes st W) at.height at.parent at.row c) }
{
    let row = weigh(pool, st, at.height, c);
    slots::set_row(pool, st, at.parent, at.row, row);
}

// How many rows a child has.
pub fn child_len(pool: &[u8], st: Settings, at: Child) -> usize
    requires { let ns = nodes st (words pool.now) in
        ToName st (words pool.now) at.height at.parent at.row (child_at ns at.height at.parent at.row) }
    ensures { result ≡ len (child_at (nodes st (words pool.now)) at.height at.parent at.row) }
{
    let c = child_at(pool, st, at.parent, at.row);
    slots::count(pool, st, c)
}
