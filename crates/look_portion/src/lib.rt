// What a portion of a listing tells besides its scan: where the next portion starts, and whether the listing has ended.
#![tactic(auto)]

ghost use Rattle.std.specs.Prelude.{◌≡◌, ◌*◌, ◌≤◌, length};
ghost use Rattle.words.specs.Words.{words};
ghost use Rattle.look_output.specs.Output.{read_entries};
ghost use Rattle.look_portion.specs.Portion.{next_start};
ghost use Rattle.look_portion.specs.Promises.{portion_in};

use look_output::Scanned;
use model::Bound;

// What the scan has done, where the next portion starts, and whether the listing has ended with this one.
#[derive(Clone, Copy)]
pub struct Portion {
    pub scanned: Scanned,
    pub next: Bound,
    pub ended: bool,
}

// The portion that a scan from `start` has made of this output.
#[tactic(auto, using(crate::proofs::Outputs::told_with_room, crate::proofs::Outputs::told_without))]
pub fn after_scan(start: Bound, scanned: Scanned, out: &[u8]) -> Portion
    requires { 24 * scanned.written ≤ length out.now }
    ensures { result ≡ portion_in start scanned out.now }
{
    let written = scanned.written;
    let next = next_start(start, out, written);
    let room = out.len() / 24;
    let ended = 0 < room && !scanned.more;
    Portion {
        scanned,
        next,
        ended,
    }
}

// The last key shown is the key of the last entry in the output.
fn next_start(start: Bound, out: &[u8], written: usize) -> Bound
    requires { 24 * written ≤ length out.now }
    ensures { result ≡ next_start start (read_entries written (words out.now)) }
{
    if written == 0 {
        return start;
    }
    let last = words::get(out, 3 * (written - 1));
    Bound::Excluded(last)
}
