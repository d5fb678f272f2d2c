// The desk program: an index of 16 nodes, order 4 and minimum 2, changed and shown by lines on standard input.
//
// `set` with key, place, size triples, `drop` with keys, `dump`. Each line is answered before the next is looked at. It only reads, calls
// `desk_answers` and writes what that answers: what is written so for any text, however its reads cut it, is proved in
// crate desk_promise (`ServesAnyText`). What `read` and `write` themselves do is outside the proof.
#![tactic(auto)]

use std::io::{Error, ErrorKind, Read, Stdin};

// The file descriptor of standard output.
const STDOUT: i32 = 1;

fn main(rt: HostRuntime) {
    let mut input = rt.stdin();
    let mut pool = [0u8; 3392];
    let mut line = [0u8; 255];
    let mut kept: usize = 0;
    desk_answers::open(&mut pool);
    for _ in 0..u64::MAX {
        let s = serve_read(&mut input, &mut pool, &mut line, kept);
        kept = s.kept;
        if !s.more {
            break;
        }
    }
    // the last line may lack its line feed
    if kept > 0 {
        let mut text = [0u8; 4096];
        let n = desk_answers::answer(&mut pool, &line, kept, &mut text);
        io::write_all(STDOUT, &text[..n]);
    }
}

// Whether there may be more to read, and how many bytes are kept of a line. Where the program is to end at once, none are. (No ControlFlow: what is
// kept is told either way.)
#[derive(Clone, Copy)]
struct Served {
    more: bool,
    kept: usize,
}

// One read from standard input, and the answers to the lines that end in it.
fn serve_read(
    input: &mut Stdin,
    pool: &mut [u8; 3392],
    line: &mut [u8; 255],
    kept: usize,
) -> Served {
    let mut part = io::buffer();
    match input.read(&mut part) {
        Ok(0) => Served { more: false, kept },
        Ok(n) => serve(pool, line, kept, &part[..n]),
        Err(e) => unread(e, kept),
    }
}

// A read that was interrupted is tried again. After one that failed the line is not known whole, and is not answered.
fn unread(e: Error, kept: usize) -> Served {
    if e.kind() == ErrorKind::Interrupted {
        return Served { more: true, kept };
    }
    Served {
        more: false,
        kept: 0,
    }
}

// Answers the lines that end in a part of the text. A write that fails ends the program.
fn serve(pool: &mut [u8; 3392], line: &mut [u8; 255], had: usize, part: &[u8]) -> Served {
    let mut text = [0u8; 4096];
    let mut kept = had;
    let mut from = 0;
    while from < part.len() {
        let t = desk_answers::take_part(pool, line, kept, &part[from..], &mut text);
        let n = t.count;
        if !io::write_all(STDOUT, &text[..n]) {
            return Served {
                more: false,
                kept: 0,
            };
        }
        kept = t.kept;
        from += t.bytes;
    }
    Served { more: true, kept }
}
