// The calls of the lines, by their kinds and arguments, done on the pool at hand, with their answers: trial_lines has the table of both.
#![tactic(auto)]

mod batches; // kinds 3 to 6
mod packs; // kind 14

use model::{Limits, PoolSettings};
use trial::{at, plus, put_word};
use trial_lines::form::{behind_tree, formed};
use trial_lines::kind::Kind;
use trial_lines::line::{Call, list};
use trial_lines::pools::Pools;
use trial_lines::told::{Told, answered, checked, refused};
use trial_looks::{Query, look};

// Does the call, where it has such arguments.
pub fn replay(first: &mut [u8], second: &mut [u8], p: Pools, call: Call) -> Option<Told> {
    if !formed(call.kind, call.args) {
        return None;
    }
    if p.turned {
        replay_on(second, first, p, call)
    } else {
        replay_on(first, second, p, call)
    }
}

// Lends the bytes of the pool at hand to the call. Only a packing is lent the other pool.
fn replay_on(pool: &mut [u8], other: &mut [u8], p: Pools, call: Call) -> Option<Told> {
    let lent = pool.get_mut(..p.lent)?;
    if call.kind == Kind::Pack {
        return Some(packs::pack(lent, other.get_mut(..p.other)?));
    }
    done(lent, call.kind, call.args)
}

// A call on one tree has the tree's number first.
fn done(pool: &mut [u8], kind: Kind, args: &[u64]) -> Option<Told> {
    let tree = at(args, 0) as usize;
    let behind = behind_tree(args);
    match kind {
        Kind::Open => Some(open(pool, args)),
        Kind::Totals => Some(totals(pool, tree)),
        Kind::Set => Some(batches::set(pool, tree, behind)),
        Kind::SetEach => batches::set_each(pool, tree, behind),
        Kind::Remove => Some(batches::remove(pool, tree, behind)),
        Kind::Compare => Some(batches::compare(pool, tree, behind)),
        Kind::Get => look(pool, tree, Query::Get, behind),
        Kind::Scan => look(pool, tree, Query::Scan, behind),
        Kind::Frame => look(pool, tree, Query::Frame, behind),
        Kind::ReadFrame => trial_frames::read(list(args, 0)),
        Kind::Put => Some(damage(pool, args)),
        Kind::Portion => look(pool, tree, Query::Portion, behind),
        Kind::Case | Kind::Reading | Kind::Pack | Kind::Turn => None,
    }
}

fn open(pool: &mut [u8], args: &[u64]) -> Told {
    fill(pool);
    let given = PoolSettings {
        nodes: at(args, 0) as usize,
        first: limits(args, 1),
        second: limits(args, 3),
    };
    let answer = index::open(pool, given);
    checked(pool, answer)
}

// An order, and a minimum behind it.
fn limits(args: &[u64], i: usize) -> Limits {
    Limits {
        order: at(args, i) as usize,
        minimum: at(args, plus(i, 1)) as usize,
    }
}

// The pool as it is lent to an opening.
fn fill(pool: &mut [u8]) {
    pool.fill(0x5a);
}

fn totals(pool: &[u8], tree: usize) -> Told {
    match index::totals(pool, tree) {
        Ok(t) => answered(&[0, t.live as u64, t.dead as u64, t.size]),
        Err(why) => refused(why),
    }
}

fn damage(pool: &mut [u8], args: &[u64]) -> Told {
    put_word(pool, at(args, 0) as usize, at(args, 1));
    checked(pool, Ok(()))
}
