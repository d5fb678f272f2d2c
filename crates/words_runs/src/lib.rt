// Runs of words: copied, set to 0, tested for zeros. A contract says of the whole list of words what becomes of it.
#![tactic(auto)]

ghost use Rattle.std.specs.Prelude.{◌≡◌, ◌+◌, ◌<◌, ◌≤◌, length, take, drop};
ghost use Rattle.words.specs.Words.{words, Same};
ghost use Rattle.words_runs.specs.Moves.{brought, moved, cleared, all_zero};

use words::{get, put};

// Copies the `n` words from `from` on to `to`. The two runs may overlap, so the way of the copy goes
// by which is lower: no word is written before it is read.
pub fn shift(pool: &mut [u8], from: usize, to: usize, n: usize)
    requires source { from + n ≤ length (words pool.old) }
    requires target { to + n ≤ length (words pool.old) }
    ensures words { words pool.new ≡ moved (words pool.old) from to n }
    ensures same { Same pool.old pool.new }
{
    if from < to {
        move_up(pool, from, to, n);
    } else {
        move_down(pool, from, to, n);
    }
}

// Copies `n` words of another pool, from its word `from` on, to the words from `to` on.
pub fn bring(pool: &mut [u8], source: &[u8], from: usize, to: usize, n: usize)
    requires source { from + n ≤ length (words source.now) }
    requires target { to + n ≤ length (words pool.old) }
    ensures words { words pool.new ≡ brought (words source.now) (words pool.old) from to n }
    ensures same { Same pool.old pool.new }
{
    for k in 0..n {
        let w = get(source, from + k);
        put(pool, to + k, w);
    }
}

// Sets the `n` words from `from` on to 0.
pub fn clear(pool: &mut [u8], from: usize, n: usize)
    requires { from + n ≤ length (words pool.old) }
    ensures words { words pool.new ≡ cleared (words pool.old) from n }
    ensures same { Same pool.old pool.new }
{
    for k in 0..n {
        put(pool, from + k, 0);
    }
}

// How many words `all_zero` reads between two tests: few, so that it stops early, and enough that the
// tests cost little.
const BLOCK: usize = 32;

// Whether the `n` words from `from` on are all 0. It goes block by block and reads nothing after the
// first block that is not: a run that is in use is mostly told by its first words.
pub fn all_zero(pool: &[u8], from: usize, n: usize) -> bool
    requires { from + n ≤ length (words pool.now) }
    ensures { result ≡ all_zero (take n (drop from (words pool.now))) }
{
    let blocks = n / BLOCK;
    for b in 0..blocks {
        if !zeros(pool, from + BLOCK * b, BLOCK) {
            return false;
        }
    }
    zeros(pool, from + BLOCK * blocks, n % BLOCK)
}

// The same of one block, or of what is left after the last. The bits of the words are joined, and
// tested once: a loop with no way out in its middle compiles to vector instructions.
fn zeros(pool: &[u8], from: usize, n: usize) -> bool
    requires { from + n ≤ length (words pool.now) }
    ensures { result ≡ all_zero (take n (drop from (words pool.now))) }
{
    let mut bits = 0;
    for k in 0..n {
        bits |= get(pool, from + k);
    }
    bits == 0
}

// Copies the `n` words from `from` on to `to`, which is above: from the last word down.
fn move_up(pool: &mut [u8], from: usize, to: usize, n: usize)
    requires up { from ≤ to }
    requires target { to + n ≤ length (words pool.old) }
    ensures words { words pool.new ≡ moved (words pool.old) from to n }
    ensures same { Same pool.old pool.new }
{
    for k in (0..n).rev() {
        let w = get(pool, from + k);
        put(pool, to + k, w);
    }
}

// Copies the `n` words from `from` on to `to`, which is below: from the first word up. (Not by `bring`: a pool cannot be lent twice, once to be written.)
fn move_down(pool: &mut [u8], from: usize, to: usize, n: usize)
    requires down { to ≤ from }
    requires source { from + n ≤ length (words pool.old) }
    ensures words { words pool.new ≡ moved (words pool.old) from to n }
    ensures same { Same pool.old pool.new }
{
    for k in 0..n {
        let w = get(pool, from + k);
        put(pool, to + k, w);
    }
}
