// A trace from standard input, its items as lines to standard output; of a refused trace its one line.
#![tactic(auto)]

use input::Program;

const ITEMS: Program = Program {
    name: "items",
    writes: "lines",
};

fn main(rt: HostRuntime) {
    // one byte more than the longest trace, so that a longer one is told from it
    let mut trace = [0u8; trace::LONGEST + 1];
    let mut text = [0u8; listing::ROOM];
    ITEMS.answer(
        &rt,
        &mut rt.stdin(),
        &mut trace,
        &mut text,
        listing::listing,
    );
}
