// Numbers of a line: lower-case hexadecimal.
ghost use Rattle.std.specs.Prelude.{◌≤◌, length};
ghost use Rattle.desk_rows.specs.Numbers.{NumberAt};

use desk_lines::find;

// A number, and the place behind it.
#[derive(Clone, Copy)]
pub struct Number {
    pub value: u64,
    pub end: usize,
}

// The number of at most `most` digits that begins at `from` and ends with a space or the line.
pub fn read_number(line: &[u8], from: usize, most: usize) -> Option<Number>
    requires { (from ≤ length line.now) × (most ≤ 16) }
    ensures { NumberAt line.now from most result }
{
    let end = find(line, from, b' ');
    if end == from {
        return None;
    }
    if most < end - from {
        return None;
    }
    let mut value: u64 = 0;
    for i in from..end {
        let d = frame_text::value_of(line[i])?;
        value = value * 16 + d;
    }
    Some(Number { value, end })
}
