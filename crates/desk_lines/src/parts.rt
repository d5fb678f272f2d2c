// A line that comes in parts. 255 bytes of it are kept at most; a count above 255 says that the line is too long.
ghost use Rattle.std.specs.Prelude.{◌≡◌};
ghost use Rattle.desk_lines.specs.Parts.{keeping};

// The most bytes of a line, its line feed not counted.
pub const LONGEST: usize = 255;

// What is answered in place of a count where the line is longer. (No Option: the count is kept beside the bytes from turn to turn, and
// any count has its meaning there: above 255 they are no line.)
pub const TOO_LONG: usize = 256;

// Puts another part of a line behind the `n` bytes that are kept of it, and answers how many are kept then. Where there is no room the
// answer is that the line is too long, and no byte is altered.
pub fn keep(line: &mut [u8; 255], n: usize, part: &[u8]) -> usize
    ensures { record { count = result; bytes = line.new }
        ≡ keeping (record { count = n; bytes = line.old }) part.now }
{
    if LONGEST < n {
        return TOO_LONG;
    }
    if LONGEST - n < part.len() {
        return TOO_LONG;
    }
    desk_text::put(line, n, part)
}
