// What the programs that try the index have in common: reading and writing at any index, lines of output.
//
// Each of these takes any index: past the end a read answers 0 and a write does nothing. So a program that tries the index owes no proof of
// where it reads, and what it read amiss it would find as a difference.
#![tactic(auto)]

ghost use Rattle.std.specs.Prelude.{◌≡◌, ◌+◌, ◌%◌, ◌^◌, slice_index, slice_set};
ghost use Rattle.words.specs.Words.{words, Same};
ghost use Rattle.trial.specs.Numbers.{product};

// The file descriptor of standard output.
const STDOUT: i32 = 1;

// The 64-bit word `i` of a pool.
pub fn word(pool: &[u8], i: usize) -> u64
    ensures { result ≡ slice_index (words pool.now) i }
{
    if i < pool.len() / 8 {
        words::get(pool, i)
    } else {
        0
    }
}

// Sets the word `i` of a pool.
pub fn put_word(pool: &mut [u8], i: usize, v: u64)
    ensures words { words pool.new ≡ slice_set (words pool.old) i v }
    ensures same { Same pool.old pool.new }
{
    if i < pool.len() / 8 {
        words::put(pool, i, v);
    }
}

pub fn at(s: &[u64], i: usize) -> u64
    ensures { result ≡ slice_index s.now i }
{
    s.get(i).copied().unwrap_or(0)
}

pub fn put(s: &mut [u64], i: usize, v: u64)
    ensures { s.new ≡ slice_set s.old i v }
{
    if i < s.len() {
        s[i] = v;
    }
}

// The sum, where it fits; else what is left of it.
pub fn plus(a: usize, b: usize) -> usize
    ensures { result ≡ (a + b) % 2 ^ 64 }
{
    a.wrapping_add(b)
}

// The product of numbers below 65,536; of greater ones it is 0.
pub fn times(a: usize, b: usize) -> usize
    ensures { result ≡ product a b }
{
    if a > 65535 || b > 65535 { 0 } else { a * b }
}

// Writes a text. (What a program writes is in no contract: `io::write_all` promises nothing of it.)
pub fn say(text: &[u8]) {
    io::write_all(STDOUT, text);
}

// Writes a text, and a number behind it.
pub fn tell(text: &[u8], n: u64) {
    say(text);
    io::print_decimal(STDOUT, n);
}
