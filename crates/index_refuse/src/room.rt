// The refusals that look at the tree.
ghost use Rattle.std.specs.Prelude.{◌≡◌, ◌≤◌};
ghost use Rattle.model.specs.Answer.{code};
ghost use Rattle.model.specs.Refuse as Model;
ghost use Rattle.index_refuse.specs.Refusals.{TreeRefused, exempts};

use model::{Operation, Refusal};

// The first of the tree's refusals that applies to a batch of `n` keys on an index of this height with so many unused nodes.
#[tactic(auto, using(crate::proofs::Refuses::deep_6))]
pub fn check_tree(height: usize, unused: usize, n: usize, op: Operation) -> Result<(), Refusal>
    requires { n ≤ 32 }
    ensures { TreeRefused height unused op n (code result) }
{
    if exempt(op, n) {
        return Ok(());
    }
    if 7 <= height {
        return Err(Refusal::TooHigh);
    }
    if unused < needed(n, height + 1) {
        return Err(Refusal::TooFewUnused);
    }
    Ok(())
}

// Whether neither height nor unused nodes matter: a batch of no keys is done, and a Remove takes no node.
fn exempt(op: Operation, n: usize) -> bool
    ensures { result ≡ exempts op n }
{
    n == 0 || model_code::is_remove(op)
}

// The unused nodes that a batch of `n` keys wants at a depth.
fn needed(n: usize, depth: usize) -> usize
    requires { (n ≤ 32) × (depth ≤ 8) }
    ensures { result ≡ Model.needed n depth }
{
    if depth < 2 {
        return n * 2 + 4;
    }
    n * depth + 4
}
