// What a caller's numbers and flags stand for.
#![tactic(auto)]

ghost use Rattle.std.specs.Prelude.{◌≡◌};
ghost use Rattle.index_c_given.specs.Given.{settings_for, bound_for, start_for, direction_for, expectation_for, action_for, leaf_contents, interior_contents};
ghost use Rattle.frame_text.specs.Contents.{of_branch};

use frame_text::{Contents, FrameEntry, Kind, leaf_entry};
use model::{Action, Bound, Direction, Expectation, Limits, PoolSettings, Reference, Totals};

pub fn settings(nodes: u64, order0: u64, minimum0: u64, order1: u64, minimum1: u64) -> PoolSettings
    ensures { result ≡ settings_for nodes order0 minimum0 order1 minimum1 }
{
    let first = Limits {
        order: order0 as usize,
        minimum: minimum0 as usize,
    };
    let second = Limits {
        order: order1 as usize,
        minimum: minimum1 as usize,
    };
    PoolSettings {
        nodes: nodes as usize,
        first,
        second,
    }
}

pub fn bound(bounded: bool, included: bool, key: u64) -> Bound
    ensures { result ≡ bound_for bounded included key }
{
    if !bounded {
        return Bound::Unbounded;
    }
    if included {
        return Bound::Included(key);
    }
    Bound::Excluded(key)
}

// The start of a portion: bounded, included, key.
pub fn start_of(from: &[u64; 3]) -> Bound
    ensures { result ≡ start_for from.now }
{
    bound(from[0] != 0, from[1] != 0, from[2])
}

pub fn direction(down: bool) -> Direction
    ensures { result ≡ direction_for down }
{
    if down {
        return Direction::Down;
    }
    Direction::Up
}

pub fn expectation(holds: bool, place: u64, size: u32) -> Expectation
    ensures { result ≡ expectation_for holds place size }
{
    if holds {
        return Expectation::Holds(Reference { place, size });
    }
    Expectation::Absent
}

pub fn action(set: bool, place: u64, size: u32) -> Action
    ensures { result ≡ action_for set place size }
{
    if set {
        return Action::Set(Reference { place, size });
    }
    Action::Remove
}

pub fn leaf(count: u64, keys: &[u64; 32], places: &[u64; 32], sizes: &[u32; 32]) -> Contents
    ensures { result ≡ leaf_contents count keys.now places.now sizes.now }
{
    let mut entries = [leaf_entry(0, 0, 0); 32];
    for i in 0..32 {
        entries[i] = leaf_entry(keys[i], places[i], sizes[i]);
    }
    Contents {
        kind: Kind::Leaf,
        count: count as usize,
        entries,
    }
}

pub fn interior(
    count: u64,
    keys: &[u64; 32],
    children: &[u32; 32],
    live: &[u32; 32],
    dead: &[u32; 32],
    sums: &[u64; 32],
) -> Contents
    ensures { result ≡ interior_contents count keys.now children.now live.now dead.now
        sums.now }
{
    let mut entries = [branch(0, 0, 0, 0, 0); 32];
    for i in 0..32 {
        entries[i] = branch(keys[i], children[i], live[i], dead[i], sums[i]);
    }
    Contents {
        kind: Kind::Interior,
        count: count as usize,
        entries,
    }
}

fn branch(key: u64, child: u32, live: u32, dead: u32, size: u64) -> FrameEntry
    ensures { result ≡ of_branch (record { key = key; child = child; totals = record { live = live; dead = dead; size = size } }) }
{
    frame_text::branch(key, child, Totals { live, dead, size })
}
