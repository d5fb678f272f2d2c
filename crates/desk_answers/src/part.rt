// A turn of the program: the next part of a line.
ghost use Rattle.desk_promise.specs.Turns.{Turns};

use crate::answer;
use desk_promise::Taken;

// Keeps the part of a line that stands first in the rest of a text, behind the `n` bytes that are kept of it. Where the line ends there
// it is answered on the pool, and nothing is kept.
pub fn take_part(
    pool: &mut [u8; 3392],
    line: &mut [u8; 255],
    n: usize,
    rest: &[u8],
    text: &mut [u8; 4096],
) -> Taken
    ensures { Turns (record { count = n; bytes = line.old }) pool.old text.old rest.now
        (record {
          taken = result.bytes;
          place = record { count = result.kept; bytes = line.new };
          left = record { count = result.count; pool = pool.new; text = text.new };
        }) }
{
    let part = desk_lines::next_line(rest);
    let end = part.len();
    let kept = desk_lines::keep(line, n, part);
    if end == rest.len() {
        return Taken {
            bytes: end,
            kept,
            count: 0,
        };
    }
    let count = answer(pool, line, kept, text);
    Taken {
        bytes: end + 1,
        kept: 0,
        count,
    }
}
