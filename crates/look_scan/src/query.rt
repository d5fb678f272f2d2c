// What a scan asks of the rows that it meets: small tests, one to a question.
ghost use Rattle.std.specs.Prelude.{◌≡◌, ◌<◌, leb};
ghost use Rattle.model.specs.Look.{due, least};
ghost use Rattle.tree.specs.Bridge.{entry_of};
ghost use Rattle.look_scan.specs.Walk.{row_enters, goes_on};
ghost use Rattle.look_scan.specs.Promises.{Placed};

use model::{Direction, Request};
use slots_raw::Row;

// Whether the entry of a leaf's row is listed.
pub fn is_due(q: Request, row: Row) -> bool
    ensures { result ≡ due q (entry_of row) }
{
    let place = tree_rows::entry_place(row);
    if model_code::is_mark(place) {
        return false;
    }
    let start = q.start;
    if !model_code::starts(start, row.key) {
        return false;
    }
    let end = q.end;
    if !model_code::ends(end, row.key) {
        return false;
    }
    is_large(q, row.size)
}

// Whether the child of an interior's row is opened.
pub fn is_entered(q: Request, row: Row) -> bool
    ensures { result ≡ row_enters q row }
{
    let start = q.start;
    if !model_code::starts(start, row.key) {
        return false;
    }
    let below = tree_rows::child_totals(row);
    let figure = model_code::figure(below);
    is_large(q, figure)
}

// Whether the loop over the children goes on behind the one with this separator. Backwards it always does.
pub fn goes_on(q: Request, key: u64) -> bool
    ensures { result ≡ goes_on q key }
{
    let direction = q.direction;
    let end = q.end;
    match direction {
        Direction::Up => model_code::ends(end, key),
        Direction::Down => true,
    }
}

// The row that a scan comes to after `j` others, of `n`.
pub fn place_in(q: Request, n: usize, j: usize) -> usize
    requires { j < n }
    ensures { Placed q n j result }
{
    let direction = q.direction;
    match direction {
        Direction::Up => j,
        Direction::Down => n - 1 - j,
    }
}

fn is_large(q: Request, size: u64) -> bool
    ensures { result ≡ leb (least q.sift) size }
{
    let sift = q.sift;
    let least = model_code::least_size(sift);
    least as u64 <= size
}
