// A pool of bytes as a list of words: eight bytes to a word, the lowest first.
//
// The caller lends the pool to each call. A contract says what becomes of `words`, the list of
// numbers that the bytes spell, so that a caller never speaks of bytes. A function that writes also
// says that the pool keeps its size, so that what was an index before the call is one after it, and
// the bytes behind its last whole word (`Same`).
#![tactic(auto)]

ghost use Rattle.std.specs.Prelude.{◌≡◌, ◌+◌, ◌*◌, ◌<◌, ◌≤◌, length, get_or, set};
ghost use Rattle.words.specs.Words.{words, Same};

// The word at `i`.
pub fn get(pool: &[u8], i: usize) -> u64
    requires { i < length (words pool.now) }
    ensures { result ≡ get_or (words pool.now) i 0 }
{
    let p = place(pool, i);
    u64::from_le_bytes([
        pool[p],
        pool[p + 1],
        pool[p + 2],
        pool[p + 3],
        pool[p + 4],
        pool[p + 5],
        pool[p + 6],
        pool[p + 7],
    ])
}

// Sets the word at `i` to `v`.
pub fn put(pool: &mut [u8], i: usize, v: u64)
    requires { i < length (words pool.old) }
    ensures words { words pool.new ≡ set (words pool.old) i v }
    ensures same { Same pool.old pool.new }
{
    let p = place(pool, i);
    let bytes = v.to_le_bytes();
    pool[p] = bytes[0];
    pool[p + 1] = bytes[1];
    pool[p + 2] = bytes[2];
    pool[p + 3] = bytes[3];
    pool[p + 4] = bytes[4];
    pool[p + 5] = bytes[5];
    pool[p + 6] = bytes[6];
    pool[p + 7] = bytes[7];
}

// The byte at which word `i` starts. It is a function so that its contract says once, for all eight
// indices of `get` and `put`, that they stand within the pool.
fn place(pool: &[u8], i: usize) -> usize
    requires { i < length (words pool.now) }
    ensures is { result ≡ 8 * i }
    ensures inside { result + 8 ≤ length pool.now }
{
    8 * i
}
