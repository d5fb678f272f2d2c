// The pass over the slots: the unused ones, which must be all zero. Of a slot in use it reads the kind only, and leaves the rest to
// the walk, which then reads each such slot once, from its first word to its last.
ghost use Rattle.words.specs.Words.{words};
ghost use Rattle.slots_raw.specs.Promises.{Shape};
ghost use Rattle.survey.specs.Promises.{SlotsTold};

use model::Settings;
use tree_spare::Spare;

// Looks at every slot, the last one first, so that the unused slot which it met last is the lowest. Where every unused slot is all
// zero, it answers which they are.
pub fn survey_slots(pool: &[u8], st: Settings) -> Option<Spare>
    requires { Shape st (words pool.now) }
    ensures { SlotsTold st (words pool.now) result }
{
    let mut unused = 0;
    let mut low = st.nodes;
    for s in (0..st.nodes).rev() {
        if slots_raw::raw_kind(pool, st, s) == slots::UNUSED {
            if !slots_pool::slot_zero(pool, st, s) {
                return None;
            }
            unused += 1;
            low = s;
        }
    }
    Some(Spare { low, unused })
}
