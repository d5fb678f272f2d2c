// The small questions of the plain types, as functions that the layers above ask: each is a definition of the model, in code.
//
// They stand apart from the model because a definition that is changed is then proved without them.
#![tactic(auto)]

ghost use Rattle.std.specs.Prelude.{◌≡◌};
ghost use Rattle.model.specs.Sound as Sound;
ghost use Rattle.model.specs.Tree.{is_mark, no_totals};
ghost use Rattle.model.specs.Plain.{no_counts};
ghost use Rattle.model.specs.Look as look;
ghost use Rattle.model.specs.Share as share;
ghost use Rattle.model.specs.Refuse.{is_remove};

use model::{Bound, Counts, Limits, Operation, PoolSettings, Settings, Sift, Totals};

// What the layers are handed of a tree, 0 or 1, in a pool that was opened with these settings.
pub fn handed(given: PoolSettings, tree: usize) -> Settings
    requires { Sound.PoolLimits given }
    ensures { result ≡ Sound.handed given tree }
{
    let rows = rows_for(given);
    let limits = limits_for(given, tree);
    let root = root_for(tree);
    Settings {
        nodes: given.nodes,
        order: limits.order,
        minimum: limits.minimum,
        rows,
        root,
    }
}

fn limits_for(given: PoolSettings, tree: usize) -> Limits
    ensures { result ≡ Sound.limits_for given tree }
{
    if tree == 0 { given.first } else { given.second }
}

fn root_for(tree: usize) -> usize
    ensures { result ≡ Sound.root_for tree }
{
    if tree == 0 { 0 } else { 1 }
}

// How many rows a slot has room for. A node may hold twice its order while a batch runs, and a slot serves either tree.
pub fn rows_for(given: PoolSettings) -> usize
    requires { Sound.PoolLimits given }
    ensures { result ≡ Sound.rows_for given }
{
    let first = given.first;
    let second = given.second;
    2 * first.order.max(second.order)
}

pub fn no_counts() -> Counts
    ensures { result ≡ no_counts }
{
    Counts {
        added: 0,
        replaced: 0,
        removed: 0,
        nothing: 0,
    }
}

// Whether a place marks a deletion. An entry with such a place is dead, the others are live.
pub fn is_mark(place: u64) -> bool
    ensures { result ≡ is_mark place }
{
    place == 0
}

// How many of `n` rows the lower of two nodes keeps: the half, rounded up.
pub fn half(n: usize) -> usize
    ensures { result ≡ share.half n }
{
    n / 2 + n % 2
}

// The totals of no entries.
pub fn no_totals() -> Totals
    ensures { result ≡ no_totals }
{
    Totals {
        live: 0,
        dead: 0,
        size: 0,
    }
}

// The figure by which a scan skips a child.
pub fn figure(t: Totals) -> u64
    ensures { result ≡ look.figure t }
{
    t.size
}

// Whether a start lets a key pass.
pub fn starts(start: Bound, key: u64) -> bool
    ensures { result ≡ look.starts start key }
{
    match start {
        Bound::Unbounded => true,
        Bound::Included(a) => a <= key,
        Bound::Excluded(a) => a < key,
    }
}

// Whether an end lets a key pass.
pub fn ends(end: Bound, key: u64) -> bool
    ensures { result ≡ look.ends end key }
{
    match end {
        Bound::Unbounded => true,
        Bound::Included(b) => key <= b,
        Bound::Excluded(b) => key < b,
    }
}

// The size from which on a sift lists an entry.
pub fn least_size(s: Sift) -> u32
    ensures { result ≡ look.least s }
{
    match s {
        Sift::All => 0,
        Sift::SizeAtLeast(n) => n,
    }
}

pub fn is_remove(o: Operation) -> bool
    ensures { result ≡ is_remove o }
{
    matches!(o, Operation::Remove)
}
