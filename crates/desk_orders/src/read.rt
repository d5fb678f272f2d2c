// What a line asks for.
ghost use Rattle.std.specs.Prelude.{◌≡◌, ◌≤◌, true, false, [], length};
ghost use Rattle.desk_orders.specs.Orders.{wanted, reading, reading_of, setting, dropping};
ghost use Rattle.desk_rows.specs.Rows.{rows_in};
ghost use Rattle.desk_rows.specs.Numbers.{fields_from};

use crate::{Order, Reading};
use desk_lines::LONGEST;
use desk_rows::read_rows;

// Reads a line of any length. One of more than 255 bytes is malformed.
#[tactic(auto, using(crate::proofs::Asks::long_read))]
pub fn read_order(line: &[u8]) -> Reading
    ensures { result ≡ reading_of (wanted line.now) }
{
    if LONGEST < line.len() {
        return no_rows(Order::Malformed);
    }
    if line.starts_with(b"set ") {
        return read_set(line);
    }
    if line.starts_with(b"drop ") {
        return read_drop(line);
    }
    if line == b"dump".as_slice() {
        return no_rows(Order::Dump);
    }
    no_rows(Order::Malformed)
}

// An order without numbers.
fn no_rows(order: Order) -> Reading
    ensures { result ≡ reading order [] [] [] }
{
    Reading {
        order,
        keys: [0; 128],
        places: [0; 128],
        sizes: [0; 128],
    }
}

// Reads the triples behind `set `.
fn read_set(line: &[u8]) -> Reading
    requires { (4 ≤ length line.now) × (length line.now ≤ 255) }
    ensures { result ≡ reading_of (setting (rows_in true (fields_from line.now 4))) }
{
    let mut keys = [0u64; 128];
    let mut places = [0u64; 128];
    let mut sizes = [0u32; 128];
    let Some(n) = read_rows(line, 4, true, &mut keys, &mut places, &mut sizes) else {
        return no_rows(Order::Malformed);
    };
    Reading {
        order: Order::Set(n),
        keys,
        places,
        sizes,
    }
}

// Reads the keys behind `drop `. (Not one function with `read_set`: a drop has zeros for places and sizes, whatever stands in the rows.)
fn read_drop(line: &[u8]) -> Reading
    requires { (5 ≤ length line.now) × (length line.now ≤ 255) }
    ensures { result ≡ reading_of (dropping (rows_in false (fields_from line.now 5))) }
{
    let mut keys = [0u64; 128];
    let mut places = [0u64; 128];
    let mut sizes = [0u32; 128];
    let Some(n) = read_rows(line, 5, false, &mut keys, &mut places, &mut sizes) else {
        return no_rows(Order::Malformed);
    };
    Reading {
        order: Order::Drop(n),
        keys,
        places: [0; 128],
        sizes: [0; 128],
    }
}
