// The lent output: entries of three words each, one behind the other, and nothing touched behind them.
#![tactic(auto)]

ghost use Rattle.std.specs.Prelude.{◌≡◌, false, [], ◌∷◌, ◌+◌, ◌*◌, ◌≤◌, length};
ghost use Rattle.words.specs.Words.{bytes_of};
ghost use Rattle.tree.specs.Bridge.{entry_of};
ghost use Rattle.look_output.specs.Output.{page, enlist, entry_words, put_entry};

use slots_raw::Row;

// What a call has listed: how many entries it has written, and whether another was due that did not fit.
#[derive(Clone, Copy)]
pub struct Listed {
    pub written: usize,
    pub more: bool,
}

// What a scan has listed, and how many nodes it has opened.
#[derive(Clone, Copy)]
pub struct Scanned {
    pub written: usize,
    pub more: bool,
    pub opened: usize,
}

// Lists the entry of a leaf's row, if there is room for it.
pub fn list_row(out: &mut [u8], room: usize, l: Listed, row: Row) -> Listed
    requires space { 24 * room ≤ length out.old }
    requires unfilled { l.more ≡ false }
    ensures { page out.new result ≡ enlist room (entry_of row) (page out.old l) }
{
    let written = l.written;
    if written < room {
        put_row(out, written, row);
        return Listed {
            written: written + 1,
            more: false,
        };
    }
    Listed {
        written,
        more: true,
    }
}

// Makes a leaf's row entry `n` of the output.
fn put_row(out: &mut [u8], n: usize, row: Row)
    requires { 24 * n + 24 ≤ length out.old }
    ensures { out.new ≡ put_entry n (entry_of row) out.old }
{
    let start = 24 * n;
    let end = start + 24;
    spell_row(&mut out[start..end], row);
}

// Writes a row to the 24 bytes lent.
fn spell_row(part: &mut [u8], row: Row)
    requires { length part.old ≡ 24 }
    ensures { part.new ≡ bytes_of (entry_words (entry_of row ∷ [])) }
{
    let place = tree_rows::entry_place(row);
    words::put(part, 0, row.key);
    words::put(part, 1, place);
    words::put(part, 2, row.size);
}
