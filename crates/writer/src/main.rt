// The writer of traces: items as lines from standard input, the trace to standard output. A line that is no item, and a list that is
// refused, is told in one line on standard error; then standard output stays empty.
#![tactic(auto)]

use input::read_all;
use made::text_made;
use std::io::Print;

mod made;
mod told;

// How many bytes of lines are taken.
const LONGEST_TEXT: usize = 1048576;

// The trace of the items that a text says, to standard output; or what is told instead, to standard error. Where that cannot be written,
// there is nobody to tell.
fn write_trace(rt: &(impl Print + Eprint), stderr: &impl Print, text: &[u8]) {
    let mut out = [0u8; trace::LONGEST];
    let mut told = [0u8; told::ROOM];
    match text_made(text, &mut out, &mut told) {
        Ok(len) => {
            if rt.write_all(&out[..len]).is_err() {
                let _told = eprintln!(rt; "writer: the trace cannot be written");
            }
        }
        Err(len) => {
            let _told = stderr.write_all(&told[..len]);
        }
    }
}

// One byte more than is taken, so that a longer text is told from it. The array is so long that a proof must not compute it: it knows of
// a function's result only that it is one.
fn text_room() -> [u8; LONGEST_TEXT + 1] {
    [0; LONGEST_TEXT + 1]
}

fn main(rt: HostRuntime) {
    let mut text = text_room();
    let Some(n) = read_all(&mut rt.stdin(), &mut text) else {
        let _told = eprintln!(rt; "writer: standard input cannot be read");
        return;
    };
    if n > LONGEST_TEXT {
        let _told = eprintln!(rt; "writer: more than {LONGEST_TEXT} bytes");
        return;
    }
    write_trace(&rt, &rt.stderr(), &text[..n]);
}
