// The unused slots of a pool, as the survey finds them and a batch hands them down: the lowest, and how many there are.
//
// So a batch need not look for an unused slot from slot 0 each time, nor count them again when it ends.
#![tactic(auto)]

ghost use Rattle.std.specs.Prelude.{◌≡◌, ◌≤◌};
ghost use Rattle.words.specs.Words.{words};
ghost use Rattle.slots.specs.Nodes.{nodes};
ghost use Rattle.tree_spare.specs.Spared.{Spared, ToTake, freeing};

use model::Settings;

// The lowest unused slot, or the number of slots where there is none, and how many slots are unused. (No Option: who takes a slot has asked before whether
// there are enough, `ToTake`, and would unwrap it at each use.)
#[derive(Clone, Copy)]
pub struct Spare {
    pub low: usize,
    pub unused: usize,
}

// What is unused once the lowest was taken: the next one is looked for behind it.
pub fn after_taking(pool: &[u8], st: Settings, was: Spare) -> Spare
    requires { ToTake st (words pool.now) was }
    ensures { Spared (nodes st (words pool.now)) result }
{
    let low = slots_find::lowest_unused(pool, st, was.low + 1);
    Spare {
        low,
        unused: was.unused - 1,
    }
}

// What is unused once slot `s` was released.
pub fn after_freeing(was: Spare, s: usize) -> Spare
    requires { was.unused ≤ 16384 }
    ensures { result ≡ freeing was s }
{
    let unused = was.unused + 1;
    if s < was.low {
        return Spare { low: s, unused };
    }
    Spare {
        low: was.low,
        unused,
    }
}
