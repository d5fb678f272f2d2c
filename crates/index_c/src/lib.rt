// The index for C and for Rust: its calls as functions on numbers and lent slices. A slice is a pointer and a count, an array a pointer.
//
// Each function but the first answers 0 where the call was done, and else the number of the refusal; a refused call leaves every lent
// buffer as it was, the small ones too. What each answers and leaves stands in specs/Calls. include/alarm_index.h declares them for C.
#![tactic(auto)]

ghost use Rattle.model.specs.declared.Operation.TheVariants.{Set, Remove, Compare};
ghost use Rattle.model.specs.Plain.{reference_for};
ghost use Rattle.model.specs.Look.{request_for};
ghost use Rattle.model.specs.ReadFrame.{read_line};
ghost use Rattle.model.specs.Sound.{PoolLimits};
ghost use Rattle.tree.specs.Pool.{pool_len};
ghost use Rattle.frame_text.specs.Contents.{frame_of};
ghost use Rattle.index_promise.specs.Promise.{Where};
ghost use Rattle.index_c_given.specs.Given.{settings_for, expectation_for, action_for, call_for, call_each, bound_for, direction_for, sift_for, leaf_contents, interior_contents};
ghost use Rattle.index_c.specs.Calls.{OpenCall, PackCall, TotalsCall, BatchCall, GetCall, ScanCall, PortionCall, FrameCall, WriteCall, ReadCall};

use index_c_fields::tell_reading;
use index_c_given::{action, bound, direction, expectation, interior, leaf, settings, start_of};
use index_c_told::{code, tell, tell_length, tell_portion};
use model::{Batch, Operation, Reference, Sift};

// The exact length of a pool, in bytes; 0 where a setting is wrong. A pool has two trees, each with its order and minimum.
#[unsafe(no_mangle)]
pub extern "C" fn alarm_pool_len(
    nodes: u64,
    order0: u64,
    minimum0: u64,
    order1: u64,
    minimum1: u64,
) -> u64
    ensures { Where (PoolLimits (settings_for nodes order0 minimum0 order1 minimum1)) (pool_len (settings_for nodes order0 minimum0 order1 minimum1)) 0 result }
{
    let given = settings(nodes, order0, minimum0, order1, minimum1);
    if !tree::in_limits(given) {
        return 0;
    }
    let n = tree::pool_len(given);
    n as u64
}

// Makes the pool two empty leaves, one of each tree.
#[unsafe(no_mangle)]
pub extern "C" fn alarm_open(
    pool: &mut [u8],
    nodes: u64,
    order0: u64,
    minimum0: u64,
    order1: u64,
    minimum1: u64,
) -> u32
    ensures { OpenCall (settings_for nodes order0 minimum0 order1 minimum1) pool.old result pool.new }
{
    let given = settings(nodes, order0, minimum0, order1, minimum1);
    let answer = index::open(pool, given);
    code(answer)
}

// Copies the entries of both trees of a pool into a second, new one, so that every node is full but the last of its level.
#[unsafe(no_mangle)]
pub extern "C" fn alarm_pack(source: &[u8], target: &mut [u8]) -> u32
    ensures { PackCall source.now target.old result target.new }
{
    let answer = index::pack(source, target);
    code(answer)
}

// Live entries, dead ones, and the sum of the sizes of the live ones.
#[unsafe(no_mangle)]
pub extern "C" fn alarm_totals(pool: &[u8], tree: u64, totals: &mut [u64; 3]) -> u32
    ensures { TotalsCall pool.now tree totals.old result totals.new }
{
    let named = tree as usize;
    let answer = index::totals(pool, named);
    tell(answer, totals)
}

// Sets every key to one reference. `counts`, of each batch: keys that added, replaced, removed, did nothing.
#[unsafe(no_mangle)]
pub extern "C" fn alarm_set(
    pool: &mut [u8],
    tree: u64,
    keys: &[u64],
    place: u64,
    size: u32,
    counts: &mut [u64; 4],
) -> u32
    ensures { BatchCall tree (call_for (Set (reference_for place size)) keys.now) pool.old counts.old result
        pool.new counts.new }
{
    batch(
        pool,
        tree,
        keys,
        Operation::Set(Reference { place, size }),
        counts,
    )
}

// Sets each key to its own reference: a place and a size a key.
#[unsafe(no_mangle)]
pub extern "C" fn alarm_set_each(
    pool: &mut [u8],
    tree: u64,
    keys: &[u64],
    places: &[u64],
    sizes: &[u32],
    counts: &mut [u64; 4],
) -> u32
    ensures { BatchCall tree (call_each keys.now places.now sizes.now) pool.old counts.old result
        pool.new counts.new }
{
    let named = tree as usize;
    let batch = Batch {
        operation: Operation::SetEach,
        keys,
        places,
        sizes,
    };
    let answer = index::batch(pool, named, &batch);
    tell(answer, counts)
}

// Removes every key.
#[unsafe(no_mangle)]
pub extern "C" fn alarm_remove(
    pool: &mut [u8],
    tree: u64,
    keys: &[u64],
    counts: &mut [u64; 4],
) -> u32
    ensures { BatchCall tree (call_for Remove keys.now) pool.old counts.old result pool.new
        counts.new }
{
    batch(pool, tree, keys, Operation::Remove, counts)
}

// For every key that is as expected: sets it to a reference if `set`, and removes it if not. Expected is a reference if `holds`, and an
// absent key if not.
#[unsafe(no_mangle)]
pub extern "C" fn alarm_compare(
    pool: &mut [u8],
    tree: u64,
    keys: &[u64],
    holds: bool,
    expected_place: u64,
    expected_size: u32,
    set: bool,
    place: u64,
    size: u32,
    counts: &mut [u64; 4],
) -> u32
    ensures { BatchCall tree (call_for (Compare (expectation_for holds expected_place expected_size) (action_for set place size))
        keys.now) pool.old counts.old result pool.new counts.new }
{
    let e = expectation(holds, expected_place, expected_size);
    let a = action(set, place, size);
    batch(pool, tree, keys, Operation::Compare(e, a), counts)
}

// A batch that is lent no references.
fn batch(pool: &mut [u8], tree: u64, keys: &[u64], op: Operation, counts: &mut [u64; 4]) -> u32
    ensures { BatchCall tree (call_for op keys.now) pool.old counts.old result pool.new counts.new }
{
    let places = [0u64; 0];
    let sizes = [0u32; 0];
    let named = tree as usize;
    let batch = Batch {
        operation: op,
        keys,
        places: &places,
        sizes: &sizes,
    };
    let answer = index::batch(pool, named, &batch);
    tell(answer, counts)
}

// Lists one entry for each key that is present. Told: entries written, and 1 where more were due.
#[unsafe(no_mangle)]
pub extern "C" fn alarm_get(
    pool: &[u8],
    tree: u64,
    keys: &[u64],
    out: &mut [u8],
    told: &mut [u64; 2],
) -> u32
    ensures { GetCall pool.now tree keys.now out.old told.old result out.new told.new }
{
    let named = tree as usize;
    let answer = index::get(pool, named, keys, out);
    tell(answer, told)
}

// Lists the live entries in a range whose size is `least` or more. Told: entries written, 1 where more were due, and nodes opened.
#[unsafe(no_mangle)]
pub extern "C" fn alarm_scan(
    pool: &[u8],
    tree: u64,
    start_bounded: bool,
    start_included: bool,
    start: u64,
    end_bounded: bool,
    end_included: bool,
    end: u64,
    down: bool,
    least: u32,
    out: &mut [u8],
    told: &mut [u64; 3],
) -> u32
    ensures { ScanCall pool.now tree
        (request_for (bound_for start_bounded start_included start) (bound_for end_bounded end_included end) (direction_for down)
        (sift_for least)) out.old told.old result out.new told.new }
{
    let low = bound(start_bounded, start_included, start);
    let high = bound(end_bounded, end_included, end);
    let way = direction(down);
    let named = tree as usize;
    let answer = index::scan(pool, named, low, high, way, Sift::SizeAtLeast(least), out);
    tell(answer, told)
}

// Lists a portion of the live entries of size `least` or more, up to an end. `from`: its start as three numbers, bounded, included and key;
// afterwards the start of the next portion. Told: entries written, 1 where more were due, nodes opened, and 1 where the listing has ended.
#[unsafe(no_mangle)]
pub extern "C" fn alarm_portion(
    pool: &[u8],
    tree: u64,
    from: &mut [u64; 3],
    end_bounded: bool,
    end_included: bool,
    end: u64,
    least: u32,
    out: &mut [u8],
    told: &mut [u64; 4],
) -> u32
    ensures { PortionCall pool.now tree (bound_for end_bounded end_included end) (sift_for least) out.old
        (record { from = from.old; told = told.old }) result out.new
        (record { from = from.new; told = told.new }) }
{
    let low = start_of(from);
    let high = bound(end_bounded, end_included, end);
    let named = tree as usize;
    let answer = index::portion(pool, named, low, high, Sift::SizeAtLeast(least), out);
    tell_portion(answer, from, told)
}

// Writes the i-th frame of a tree. `len`: the line's length.
#[unsafe(no_mangle)]
pub extern "C" fn alarm_frame(pool: &[u8], tree: u64, i: u64, line: &mut [u8], len: &mut u64) -> u32
    ensures { FrameCall pool.now tree i line.old len.old result line.new len.new }
{
    let named = tree as usize;
    let number = i as usize;
    let answer = index::frame(pool, named, number, line);
    tell_length(answer, len)
}

// Reads a frame. `head`: its kind, which is the header byte, and how many entries; then 32 places a field, zeros past the entries.
#[unsafe(no_mangle)]
pub extern "C" fn alarm_read_frame(
    line: &[u8],
    head: &mut [u64; 2],
    keys: &mut [u64; 32],
    wide: &mut [u64; 32],
    narrow: &mut [u32; 32],
    live: &mut [u32; 32],
    dead: &mut [u32; 32],
) -> u32
    ensures { ReadCall (read_line line.now) (record {
      head = head.old;
      keys = keys.old;
      wide = wide.old;
      narrow = narrow.old;
      live = live.old;
      dead = dead.old;
    }) result
        (record {
          head = head.new;
          keys = keys.new;
          wide = wide.new;
          narrow = narrow.new;
          live = live.new;
          dead = dead.new;
        }) }
{
    let reading = index::read_frame(line);
    tell_reading(reading, head, keys, wide, narrow, live, dead)
}

// Writes the frame of a leaf with the first `count` of 32 entries. `len`: the line's length.
#[unsafe(no_mangle)]
pub extern "C" fn alarm_write_leaf(
    count: u64,
    keys: &[u64; 32],
    places: &[u64; 32],
    sizes: &[u32; 32],
    line: &mut [u8],
    len: &mut u64,
) -> u32
    ensures { WriteCall (frame_of (leaf_contents count keys.now places.now sizes.now)) line.old
        len.old result line.new len.new }
{
    let contents = leaf(count, keys, places, sizes);
    let answer = index::write_frame(contents, line);
    tell_length(answer, len)
}

// Writes the frame of an interior with the first `count` of 32 entries. `len`: the line's length.
#[unsafe(no_mangle)]
pub extern "C" fn alarm_write_interior(
    count: u64,
    keys: &[u64; 32],
    children: &[u32; 32],
    live: &[u32; 32],
    dead: &[u32; 32],
    sums: &[u64; 32],
    line: &mut [u8],
    len: &mut u64,
) -> u32
    ensures { WriteCall (frame_of (interior_contents count keys.now children.now live.now dead.now
        sums.now)) line.old len.old result line.new len.new }
{
    let contents = interior(count, keys, children, live, dead, sums);
    let answer = index::write_frame(contents, line);
    tell_length(answer, len)
}
