// The tree that a call names: the one place that tests a pool and the tree's number. Every call on one tree begins here.
#![tactic(auto)]

ghost use Rattle.std.specs.Prelude.{◌≡◌};
ghost use Rattle.survey.specs.Promises.{height_for};
ghost use Rattle.index_named.specs.Promises.{Finds};

use model::{Refusal, Settings};
use model_code::handed;
use survey::{Findings, survey};
use tree_spare::Spare;

// The tree that a call names, in a sound pool: its settings, its height, and the pool's unused slots.
#[derive(Clone, Copy)]
pub struct Named {
    pub settings: Settings,
    pub height: usize,
    pub spare: Spare,
}

// Tests any bytes and any number: a tree is named by a number and by no enum, since a caller may give any, and `NumbersRefused` says what becomes of it.
// `Unsound` stands before `NoSuchTree` in the table, and so does the pool's test before the number's.
pub fn find(pool: &[u8], tree: usize) -> Result<Named, Refusal>
    ensures { Finds pool.now tree result }
{
    let found = survey(pool).ok_or(Refusal::Unsound)?;
    if 1 < tree {
        return Err(Refusal::NoSuchTree);
    }
    let settings = handed(found.given, tree);
    let height = height_for(tree, found);
    Ok(Named {
        settings,
        height,
        spare: found.spare,
    })
}

// The height of a tree, 0 or 1, of those that a survey has found.
fn height_for(tree: usize, found: Findings) -> usize
    ensures { result ≡ height_for tree found }
{
    if tree == 0 { found.first } else { found.second }
}
