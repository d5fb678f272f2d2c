// The desk's answers: a line that was kept, answered on the desk's pool, as text in bytes that are lent.
#![tactic(auto)]

ghost use Rattle.std.specs.Prelude.{◌≤◌, [], length, take};
ghost use Rattle.model.specs.Refuse.{call};
ghost use Rattle.model.specs.declared.Operation.TheVariants.{SetEach, Remove};
ghost use Rattle.desk_orders.specs.Orders.{ordered};
ghost use Rattle.desk_lines.specs.Parts.{held};
ghost use Rattle.desk_promise.specs.Promise.{Answers, Changes};

mod part; // the next part of a line

use desk_dump::dump;
use desk_orders::{Order, Reading};
use desk_pool::change;
pub use desk_pool::open;
use model::{Batch, Operation, Refusal};
pub use part::take_part;

// Answers the line of which `n` bytes are kept (more than 255: it was too long) with a text in the first bytes of `text`, and tells its
// length.
pub fn answer(pool: &mut [u8; 3392], line: &[u8; 255], n: usize, text: &mut [u8; 4096]) -> usize
    ensures { Answers (ordered (held (record { count = n; bytes = line.now }))) pool.old text.old
        (record { count = result; pool = pool.new; text = text.new }) }
{
    if desk_lines::LONGEST < n {
        return desk_text::say_refused(text, Refusal::MalformedLine);
    }
    let bytes: &[u8] = line;
    let read = desk_orders::read_order(&bytes[..n]);
    match read.order {
        Order::Set(m) => set_rows(pool, &read, m, text),
        Order::Drop(m) => drop_keys(pool, &read, m, text),
        Order::Dump => dump(pool, text),
        Order::Malformed => desk_text::say_refused(text, Refusal::MalformedLine),
    }
}

// The batch that a `set` of `m` rows asks for.
fn set_rows(pool: &mut [u8; 3392], read: &Reading, m: usize, text: &mut [u8; 4096]) -> usize
    requires { (m ≤ length read.now.keys) × (m ≤ length read.now.places) × (m ≤ length read.now.sizes) }
    ensures { Changes
        (call SetEach (take m read.now.places) (take m read.now.sizes) (take m read.now.keys))
        pool.old text.old (record { count = result; pool = pool.new; text = text.new }) }
{
    let batch = Batch {
        operation: Operation::SetEach,
        keys: &read.keys[..m],
        places: &read.places[..m],
        sizes: &read.sizes[..m],
    };
    change(pool, &batch, text)
}

// The batch that a `drop` of `m` keys asks for.
fn drop_keys(pool: &mut [u8; 3392], read: &Reading, m: usize, text: &mut [u8; 4096]) -> usize
    requires { m ≤ length read.now.keys }
    ensures { Changes (call Remove [] [] (take m read.now.keys))
        pool.old text.old (record { count = result; pool = pool.new; text = text.new }) }
{
    let batch = Batch {
        operation: Operation::Remove,
        keys: &read.keys[..m],
        places: &[],
        sizes: &[],
    };
    change(pool, &batch, text)
}
