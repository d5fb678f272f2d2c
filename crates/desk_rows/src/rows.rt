// The rows of a line: key, place, size triples, or keys alone.
ghost use Rattle.std.specs.Prelude.{◌≡◌, true, false, ◌≤◌, length, IfSome};
ghost use Rattle.desk_rows.specs.Rows.{rows_in};
ghost use Rattle.desk_rows.specs.Numbers.{fields_from, NextAt, RowAt, Lends, Past, rows_read};

use crate::digits::{Number, read_number};

// A row, and the place behind it.
#[derive(Clone, Copy)]
pub struct Row {
    pub key: u64,
    pub place: u64,
    pub size: u32,
    pub end: usize,
}

// Reads the rows from `from` on, and tells how many they are; none where they are malformed. A line of 255 bytes has no room for 128.
pub fn read_rows(
    line: &[u8],
    from: usize,
    triples: bool,
    keys: &mut [u64],
    places: &mut [u64],
    sizes: &mut [u32],
) -> Option<usize>
    requires lent { Lends keys.old places.old sizes.old }
    requires placed { (4 ≤ from) × (from ≤ length line.now) × (length line.now ≤ 255) }
    ensures read { rows_read result keys.new places.new sizes.new ≡ rows_in triples (fields_from line.now from) }
    ensures lent { Lends keys.new places.new sizes.new }
    ensures few { IfSome result (λ n. n ≤ 128) }
    ensures past { IfSome result (λ n. Past n keys.old places.old sizes.old
        keys.new places.new sizes.new) }
{
    let mut at = from;
    let mut n = 0;
    while at <= line.len() {
        let row = read_row(line, at, triples)?;
        keys[n] = row.key;
        places[n] = row.place;
        sizes[n] = row.size;
        n += 1;
        at = row.end + 1;
    }
    Some(n)
}

// The row that begins at `at`.
fn read_row(line: &[u8], at: usize, triples: bool) -> Option<Row>
    requires { at ≤ length line.now }
    ensures { RowAt triples line.now at result }
{
    if triples {
        read_triple(line, at)
    } else {
        read_key(line, at)
    }
}

fn read_key(line: &[u8], at: usize) -> Option<Row>
    requires { at ≤ length line.now }
    ensures { RowAt false line.now at result }
{
    let key = read_number(line, at, 16)?;
    Some(Row {
        key: key.value,
        place: 0,
        size: 0,
        end: key.end,
    })
}

fn read_triple(line: &[u8], at: usize) -> Option<Row>
    requires { at ≤ length line.now }
    ensures { RowAt true line.now at result }
{
    let key = read_number(line, at, 16)?;
    let place = next_number(line, key.end, 16)?;
    let size = next_number(line, place.end, 8)?;
    Some(Row {
        key: key.value,
        place: place.value,
        size: size.value as u32,
        end: size.end,
    })
}

// The number behind the field that ends at `end`; none where the line ends there too.
fn next_number(line: &[u8], end: usize, most: usize) -> Option<Number>
    requires { (end ≤ length line.now) × (most ≤ 16) }
    ensures { NextAt line.now end most result }
{
    if end == line.len() {
        return None;
    }
    read_number(line, end + 1, most)
}
