// What becomes of a child that was called: where it changed, its row is made new, and it is shared out, joined or taken out.
#![tactic(auto)]

ghost use Rattle.std.specs.Prelude.{get_or};
ghost use Rattle.words.specs.Words.{words};
ghost use Rattle.slots_raw.specs.Slots.{blank};
ghost use Rattle.slots.specs.Nodes.{nodes, rows_at};
ghost use Rattle.slots.specs.Promises.{NodesPut};
ghost use Rattle.tree.specs.Bridge.{child_of};
ghost use Rattle.batch_share.specs.Promises.{ToSettle, ChildSettled, ToRenew};
ghost use Rattle.batch_share.specs.Children.{renewed};

use batch_join::{absorb, take_out};
use batch_share::renew::renew;
use batch_share::{Child, Standing, share_out};
use model::{ChangeResult, Settings};
use tree_node::child_at;
use tree_spare::Spare;

// Settles the result `v` of a child. (The Rust's `process_interior_change_result`.)
pub fn settle_child(
    pool: &mut [u8],
    st: Settings,
    at: Child,
    v: ChangeResult,
    spare: Spare,
) -> Standing
    requires { ToSettle st (words pool.old) at.height at.parent at.row spare v }
    ensures { ChildSettled st (words pool.old) (words pool.new) at.height at.parent at.row v result }
{
    match v {
        ChangeResult::Unchanged => Standing { at: at.row, spare },
        ChangeResult::Remove => {
            renew_child(pool, st, at);
            take_out(pool, st, at, spare)
        }
        ChangeResult::Absorb => {
            renew_child(pool, st, at);
            absorb(pool, st, at, spare)
        }
        ChangeResult::Changed => {
            renew_child(pool, st, at);
            Standing { at: at.row, spare }
        }
        ChangeResult::Split => {
            renew_child(pool, st, at);
            share_out(pool, st, at, spare)
        }
    }
}

// The row of a child becomes that of the node that it names.
fn renew_child(pool: &mut [u8], st: Settings, at: Child)
    requires { let W = words pool.old in ToRenew st W at.height at.parent at.row (child_of (get_or (rows_at st W at.parent) at.row blank)) }
    ensures { let W = words pool.old in
        NodesPut st W (words pool.new) (renewed (nodes st W) at.height at.parent at.row (child_of (get_or (rows_at st W at.parent) at.row blank))) }
{
    let c = child_at(pool, st, at.parent, at.row);
    renew(pool, st, at, c);
}
