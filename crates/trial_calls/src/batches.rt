// Kinds 3 to 6: batches on one tree. The arguments are those behind the tree's number.
use model::{Action, Batch, Counts, Expectation, Operation, Reference, Refusal};
use trial::{at, plus};
use trial_lines::form::{second, size, third};
use trial_lines::line::list;
use trial_lines::told::{Told, answered, check, checked};

pub fn set(pool: &mut [u8], tree: usize, args: &[u64]) -> Told {
    plain(
        pool,
        tree,
        list(args, 2),
        Operation::Set(reference(args, 0)),
    )
}

pub fn remove(pool: &mut [u8], tree: usize, args: &[u64]) -> Told {
    plain(pool, tree, list(args, 0), Operation::Remove)
}

pub fn compare(pool: &mut [u8], tree: usize, args: &[u64]) -> Told {
    let op = Operation::Compare(expectation(args), action(args));
    plain(pool, tree, list(args, 6), op)
}

// A batch that has no list but its keys.
fn plain(pool: &mut [u8], tree: usize, keys: &[u64], op: Operation) -> Told {
    let places = [0u64; 1];
    let sizes = [0u32; 1];
    let batch = Batch {
        operation: op,
        keys,
        places: &places,
        sizes: &sizes,
    };
    let a = index::batch(pool, tree, &batch);
    counted(pool, a)
}

// The arguments are three lists.
pub fn set_each(pool: &mut [u8], tree: usize, args: &[u64]) -> Option<Told> {
    let keys = list(args, 0);
    let places = list(args, second(args));
    let numbers = list(args, third(args));
    let mut room = [0u32; 64];
    narrow(numbers, &mut room);
    let batch = Batch {
        operation: Operation::SetEach,
        keys,
        places,
        sizes: room.get(..numbers.len())?,
    };
    let a = index::batch(pool, tree, &batch);
    Some(counted(pool, a))
}

fn narrow(numbers: &[u64], sizes: &mut [u32; 64]) {
    for (place, number) in sizes.iter_mut().zip(numbers) {
        *place = size(*number);
    }
}

fn counted(pool: &[u8], a: Result<Counts, Refusal>) -> Told {
    match a {
        Ok(c) => answered(&[
            0,
            c.added as u64,
            c.replaced as u64,
            c.removed as u64,
            c.nothing as u64,
            check(pool),
        ]),
        Err(why) => checked(pool, Err(why)),
    }
}

fn expectation(args: &[u64]) -> Expectation {
    if at(args, 0) == 0 {
        Expectation::Absent
    } else {
        Expectation::Holds(reference(args, 1))
    }
}

fn action(args: &[u64]) -> Action {
    if at(args, 3) == 0 {
        Action::Remove
    } else {
        Action::Set(reference(args, 4))
    }
}

// A place, and a size behind it.
fn reference(args: &[u64], i: usize) -> Reference {
    Reference {
        place: at(args, i),
        size: size(at(args, plus(i, 1))),
    }
}
