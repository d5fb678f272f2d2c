// Rows that come from a node of another pool. The pools may differ in every setting: a row is three words in each.
#![tactic(auto)]

ghost use Rattle.std.specs.Prelude.{◌++◌};
ghost use Rattle.words.specs.Words.{words};
ghost use Rattle.slots_raw.specs.Over.{part};
ghost use Rattle.slots.specs.Nodes.{nodes, rows_at, put_rows};
ghost use Rattle.slots.specs.Promises.{NodesPut};
ghost use Rattle.slots_copy.specs.Promises.{ToCopy};

use model::Settings;
use slots::count;
use slots_raw::{HEAD, ROW, base};
use slots_write::raw_put_count;

// Copies `n` rows of node `s` of the pool `source`, from row `from` on, to the end of node `t`. They go
// as one run of words, and not row by row.
pub fn append_rows(
    pool: &mut [u8],
    st: Settings,
    t: usize,
    source: &[u8],
    su: Settings,
    s: usize,
    from: usize,
    n: usize,
)
    requires { ToCopy st (words pool.old) t su (words source.now) s from n }
    ensures { let W = words pool.old in let U = words source.now in
        NodesPut st W (words pool.new) (put_rows (nodes st W) t (rows_at st W t ++ part (rows_at su U s) from n)) }
{
    let m = count(pool, st, t);
    let a = base(source, su, s);
    let b = base(pool, st, t);
    words_runs::bring(
        pool,
        source,
        a + (HEAD + from * ROW),
        b + (HEAD + m * ROW),
        n * ROW,
    );
    raw_put_count(pool, st, t, m + n);
}
