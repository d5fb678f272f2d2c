// The refusals that look at keys: 3 to 7 of a batch, and 5 of a get.
#![tactic(auto)]

ghost use Rattle.std.specs.Prelude.{◌≤◌};
ghost use Rattle.model.specs.Answer.{code};
ghost use Rattle.model.specs.Refuse.{called};
ghost use Rattle.model.specs.Demands.{ReferenceFits, OperationFits};
ghost use Rattle.index_refuse.specs.Refusals.{BatchRefused};

mod call; // 3 to 5, which look at the call alone
mod room; // 6 and 7, which look at the tree

use call::check_call;
pub use call::descends;
use model::{Action, Batch, Operation, Reference, Refusal, Settings};
use room::check_tree;

// Whether a batch is taken by an index of this height with so many unused nodes; if not, the first refusal of the table that applies.
pub fn check_batch(st: Settings, height: usize, unused: usize, batch: &Batch) -> Result<(), Refusal>
    requires { st.order ≤ 32 }
    ensures { BatchRefused st height unused (called batch.now) (code result) }
{
    check_call(st, batch)?;
    check_tree(height, unused, batch.keys.len(), batch.operation)
}

// What an operation carries are numbers of their types. Nothing is done here: it is matched for what its numbers then promise.
pub fn operation_fits(op: Operation)
    ensures { OperationFits op }
{
    match op {
        Operation::Set(r) => reference_fits(r),
        Operation::SetEach => {}
        Operation::Remove => {}
        Operation::Compare(_, a) => match a {
            Action::Set(r) => reference_fits(r),
            Action::Remove => {}
        },
    }
}

fn reference_fits(r: Reference)
    ensures { ReferenceFits r }
{
    let _place = r.place;
    let _size = r.size;
}
