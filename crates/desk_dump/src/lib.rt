// All frames of the tree that the desk keeps to, one to a line.
#![tactic(auto)]

ghost use Rattle.std.specs.Prelude.{◌≡◌, length};
ghost use Rattle.desk_orders.specs.Orders.{dump as dump_order};
ghost use Rattle.desk_promise.specs.Promise.{Replies};

use desk_promise::TREE;
use model::Refusal;

// Writes the frames into the first bytes of a text, and tells their length. A pool of 3,392 bytes has at most 16 nodes, and its frames
// have room in 4,096.
pub fn dump(pool: &[u8; 3392], text: &mut [u8; 4096]) -> usize
    ensures { Replies dump_order pool.now text.old
        (record { count = result; pool = pool.now; text = text.new }) }
{
    show(pool, text)
}

// The frames one after the other, of a pool and into a text of these lengths.
fn show(pool: &[u8], text: &mut [u8]) -> usize
    requires { (length pool.now ≡ 3392) × (length text.old ≡ 4096) }
    ensures { Replies dump_order pool.now text.old
        (record { count = result; pool = pool.now; text = text.new }) }
{
    let mut at = 0;
    for i in 0..16 {
        match index_look::frame(pool, TREE, i, &mut text[at..]) {
            Ok(n) => {
                text[at + n] = b'\n';
                at = at + n + 1;
            }
            Err(why) => {
                return match why {
                    Refusal::NoSuchNode => at, // all frames are written
                    _ => desk_text::say_refused(text, why),
                };
            }
        }
    }
    at
}
