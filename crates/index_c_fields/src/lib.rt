// A frame that was read, as C has it: a buffer for each field of its places, which a refusal leaves as they were.
#![tactic(auto)]

ghost use Rattle.std.specs.Prelude.{◌≡◌};
ghost use Rattle.index_c_told.specs.Told.{told_by, Reports};
ghost use Rattle.index_c_fields.specs.Fields.{fields_of, wide_of, narrow_of};

use frame_text::{Contents, FrameEntry, Kind};
use index_c_told::Numbered;

pub fn tell_reading<E: Numbered>(
    reading: Result<Contents, E>,
    head: &mut [u64; 2],
    keys: &mut [u64; 32],
    wide: &mut [u64; 32],
    narrow: &mut [u32; 32],
    live: &mut [u32; 32],
    dead: &mut [u32; 32],
) -> u32
    ensures { Reports fields_of (told_by E.number reading)
        (record {
          head = head.old;
          keys = keys.old;
          wide = wide.old;
          narrow = narrow.old;
          live = live.old;
          dead = dead.old;
        }) result (record {
          head = head.new;
          keys = keys.new;
          wide = wide.new;
          narrow = narrow.new;
          live = live.new;
          dead = dead.new;
        }) }
{
    match reading {
        Ok(contents) => {
            put_contents(contents, head, keys, wide, narrow, live, dead);
            0
        }
        Err(why) => why.number(),
    }
}

// The kind and the count, and each field of the 32 places.
fn put_contents(
    contents: Contents,
    head: &mut [u64; 2],
    keys: &mut [u64; 32],
    wide: &mut [u64; 32],
    narrow: &mut [u32; 32],
    live: &mut [u32; 32],
    dead: &mut [u32; 32],
)
    ensures { (record {
      head = head.new;
      keys = keys.new;
      wide = wide.new;
      narrow = narrow.new;
      live = live.new;
      dead = dead.new;
    }) ≡ fields_of contents }
{
    let kind = contents.kind;
    let entries = contents.entries;
    let mut key = [0u64; 32];
    let mut high = [0u64; 32];
    let mut low = [0u32; 32];
    let mut alive = [0u32; 32];
    let mut gone = [0u32; 32];
    for i in 0..32 {
        let e = entries[i];
        key[i] = e.key;
        high[i] = wide_of(kind, e);
        low[i] = narrow_of(kind, e);
        alive[i] = live_of(e);
        gone[i] = dead_of(e);
    }
    *head = [kind.into(), contents.count as u64];
    *keys = key;
    *wide = high;
    *narrow = low;
    *live = alive;
    *dead = gone;
}

// The place of a leaf's entry, the size sum of an interior's.
fn wide_of(kind: Kind, e: FrameEntry) -> u64
    ensures { result ≡ wide_of kind e }
{
    let r = e.reference;
    let t = e.totals;
    match kind {
        Kind::Leaf => r.place,
        Kind::Interior => t.size,
    }
}

// The size of a leaf's entry, the child number of an interior's.
fn narrow_of(kind: Kind, e: FrameEntry) -> u32
    ensures { result ≡ narrow_of kind e }
{
    let r = e.reference;
    match kind {
        Kind::Leaf => r.size,
        Kind::Interior => e.child,
    }
}

fn live_of(e: FrameEntry) -> u32
    ensures { result ≡ e.totals.live }
{
    let t = e.totals;
    t.live
}

fn dead_of(e: FrameEntry) -> u32
    ensures { result ≡ e.totals.dead }
{
    let t = e.totals;
    t.dead
}
