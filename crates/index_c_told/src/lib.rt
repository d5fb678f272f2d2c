// An answer as C has it: 0 or a number as the result, and what was done in small lent buffers, which a refusal leaves as they were.
#![tactic(auto)]

ghost use Rattle.std.specs.Prelude.{◌≡◌, ℕ, List};
ghost use Rattle.model.specs.Answer.{number as table_number};
ghost use Rattle.index_c_told.specs.Told.{told_by, code_by, Reports, total_numbers, count_numbers, listed_numbers, scanned_numbers, portion_numbers, bound_numbers, start_after, buffers_after};

use look_output::{Listed, Scanned};
use look_portion::Portion;
use model::{Bound, Counts, Refusal, Totals};

// What a refusal is told as: its number.
pub trait Numbered: Copy {
    ghost number: { Self → ℕ };

    fn number(self) -> u32
        ensures { result ≡ number self };
}

// The number that the table gives it.
impl Numbered for Refusal {
    ghost number = { table_number };

    fn number(self) -> u32 {
        self.into()
    }
}

// A bare number is told as it is, also one that the table lacks.
impl Numbered for u32 {
    ghost number = { λ n. n };

    fn number(self) -> u32 {
        self
    }
}

// 0 where the call was done, and the number of its refusal where it was not.
pub fn code<A: Copy, E: Numbered>(answer: Result<A, E>) -> u32
    ensures { result ≡ code_by E.number answer }
{
    match answer {
        Ok(_) => 0,
        Err(why) => why.number(),
    }
}

// What was done, as the numbers of a small buffer.
pub trait Numbers<const N: usize> {
    ghost numbers: { Self → List ℕ };

    fn numbers(self) -> [u64; N]
        ensures { result ≡ numbers self };
}

impl Numbers<3> for Totals {
    ghost numbers = { total_numbers };

    fn numbers(self) -> [u64; 3] {
        [self.live as u64, self.dead as u64, self.size]
    }
}

impl Numbers<4> for Counts {
    ghost numbers = { count_numbers };

    fn numbers(self) -> [u64; 4] {
        [
            self.added as u64,
            self.replaced as u64,
            self.removed as u64,
            self.nothing as u64,
        ]
    }
}

impl Numbers<2> for Listed {
    ghost numbers = { listed_numbers };

    fn numbers(self) -> [u64; 2] {
        [self.written as u64, self.more as u64]
    }
}

impl Numbers<3> for Scanned {
    ghost numbers = { scanned_numbers };

    fn numbers(self) -> [u64; 3] {
        [self.written as u64, self.more as u64, self.opened as u64]
    }
}

impl Numbers<4> for Portion {
    ghost numbers = { portion_numbers };

    fn numbers(self) -> [u64; 4] {
        let s = self.scanned;
        [
            s.written as u64,
            s.more as u64,
            s.opened as u64,
            self.ended as u64,
        ]
    }
}

impl Numbers<3> for Bound {
    ghost numbers = { bound_numbers };

    fn numbers(self) -> [u64; 3] {
        match self {
            Bound::Unbounded => [0, 0, 0],
            Bound::Included(key) => [1, 1, key],
            Bound::Excluded(key) => [1, 0, key],
        }
    }
}

// Of an answer with numbers.
pub fn tell<const N: usize, T: Numbers<N>, E: Numbered>(
    answer: Result<T, E>,
    small: &mut [u64; N],
) -> u32
    ensures { Reports T.numbers (told_by E.number answer) small.old result small.new }
{
    match answer {
        Ok(done) => {
            *small = done.numbers();
            0
        }
        Err(why) => why.number(),
    }
}

pub fn tell_portion<E: Numbered>(
    answer: Result<Portion, E>,
    from: &mut [u64; 3],
    small: &mut [u64; 4],
) -> u32
    ensures { Reports (buffers_after from.old) (told_by E.number answer) (record { from = from.old; told = small.old }) result
        (record { from = from.new; told = small.new }) }
{
    if let Ok(p) = answer {
        tell_start(p, from);
    }
    tell(answer, small)
}

// The numbers of the next start. Where nothing was shown those of this one stay as the caller gave them.
fn tell_start(p: Portion, from: &mut [u64; 3])
    ensures { from.new ≡ start_after p from.old }
{
    let s = p.scanned;
    if s.written != 0 {
        let next = p.next;
        *from = next.numbers();
    }
}

pub fn tell_length<E: Numbered>(answer: Result<usize, E>, len: &mut u64) -> u32
    ensures { Reports (λ n. n) (told_by E.number answer) len.old result len.new }
{
    if let Ok(n) = answer {
        *len = n as u64;
    }
    code(answer)
}
