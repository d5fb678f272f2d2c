// The call that packs a pool into another one: both trees, the second's other nodes behind the first's.
#![tactic(auto)]

ghost use Rattle.std.specs.Prelude.{◌≡◌, length, Some};
ghost use Rattle.words.specs.Words.{words};
ghost use Rattle.model.specs.Tree.{entries_of};
ghost use Rattle.model_pack.specs.Pack.{is_new};
ghost use Rattle.model_pack.specs.PackForest.{is_new_forest, forests_differ};
ghost use Rattle.tree.specs.Pool.{index_of, forest_of};
ghost use Rattle.tree.specs.Promises.{InPool};
ghost use Rattle.pack.specs.Build.{entries_in, tree_for};
ghost use Rattle.pack.specs.Promises.{ToBuild, Built};
ghost use Rattle.index_promise.specs.Promise.{Packs};
ghost use Rattle.index_pack.specs.Plan.{plan_for, piece_of};
ghost use Rattle.index_pack.specs.Promises.{ToCopy};
ghost use Rattle.survey.specs.Promises.{Surveyed};

use model::{PoolSettings, Refusal, Settings};
use model_code::handed;
use pack::{Piece, Source};
use pack_plan::{height_for, nodes_for};
use survey::Findings;

// Copies the entries of a pool into a second one, a new pool of the same orders and minimums, tree by tree, so that every node is full but the last of
// its level. Refused as 2, 17, 18 or 7. The first pool is only read.
pub fn pack(source: &[u8], target: &mut [u8]) -> Result<(), Refusal>
    ensures { Packs source.now target.old result target.new }
{
    let from = survey::survey(source).ok_or(Refusal::Unsound)?;
    let to = survey::survey(target).ok_or(Refusal::Unsound)?;
    if settings_differ(from.given, to.given) {
        return Err(Refusal::SettingsDiffer);
    }
    if !is_new(target, to) {
        return Err(Refusal::TargetNotNew);
    }
    copy_trees(source, from, target, to)
}

// Whether two pools differ in an order or a minimum.
fn settings_differ(a: PoolSettings, b: PoolSettings) -> bool
    ensures { result ≡ forests_differ a b }
{
    a.first != b.first || a.second != b.second
}

// Whether a pool is two empty leaves.
fn is_new(pool: &[u8], found: Findings) -> bool
    requires { Surveyed pool.now (Some found) }
    ensures { result ≡ is_new_forest (forest_of pool.now) }
{
    let first = handed(found.given, 0);
    let second = handed(found.given, 1);
    is_bare(pool, first, found.first) && is_bare(pool, second, found.second)
}

// Whether a tree is one empty leaf.
fn is_bare(pool: &[u8], st: Settings, height: usize) -> bool
    requires { InPool pool.now st height }
    ensures { result ≡ is_new (index_of pool.now st.root) }
{
    height == 0 && slots::count(pool, st, st.root) == 0
}

// Copies both trees, if there is room for them. The first tree's other nodes come straight after the roots, the second's straight after those.
fn copy_trees(source: &[u8], from: Findings, target: &mut [u8], to: Findings) -> Result<(), Refusal>
    requires { ToCopy source.now from target.old to }
    ensures { Packs source.now target.old result target.new }
{
    let first = plan_tree(source, handed(from.given, 0), from.first);
    let second = plan_tree(source, handed(from.given, 1), from.second);
    let st = handed(to.given, 0);
    let needed = first.nodes + second.nodes;
    if st.nodes < needed {
        return Err(Refusal::TooFewUnused);
    }
    let next = copy_tree(target, st, source, first, 2);
    copy_tree(target, handed(to.given, 1), source, second, next);
    Ok(())
}

// What is known of a packed tree before anything is written: where its entries stand and how many they are, its height, and the number of its nodes.
#[derive(Clone, Copy)]
struct Plan {
    source: Source,
    count: usize,
    height: usize,
    nodes: usize,
}

// Plans a tree of a pool.
fn plan_tree(pool: &[u8], st: Settings, height: usize) -> Plan
    requires { InPool pool.now st height }
    ensures { result ≡ plan_for pool.now st.root st.order }
{
    let count = entries_in(pool, st, height);
    let high = height_for(st.order, count);
    Plan {
        source: Source {
            settings: st,
            height,
        },
        count,
        height: high,
        nodes: nodes_for(st.order, high, count),
    }
}

// How many entries a tree has, dead ones too.
fn entries_in(pool: &[u8], st: Settings, height: usize) -> usize
    requires { InPool pool.now st height }
    ensures { result ≡ length (entries_of (index_of pool.now st.root)) }
{
    let t = look::totals(pool, st, height);
    t.live as usize + t.dead as usize
}

// Builds a planned tree, its other nodes in the slots from `next` on. The answer is the first slot behind them.
fn copy_tree(target: &mut [u8], st: Settings, source: &[u8], p: Plan, next: usize) -> usize
    requires { ToBuild st (words target.old) p.source (words source.now) p.height (piece_of p st.root next) }
    ensures { let es = entries_in p.source (words source.now) in
        let t = tree_for st es p.height (piece_of p st.root next) in
        Built st (words target.old) (words target.new) p.height t next result }
{
    let whole = Piece {
        height: p.height,
        slot: st.root,
        next,
        from: 0,
        count: p.count,
    };
    pack::build(target, st, source, p.source, whole)
}
