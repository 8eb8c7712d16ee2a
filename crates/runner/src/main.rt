// The trace runner: a trace from standard input, its report to standard output.
#![tactic(auto)]

use input::Program;

const RUNNER: Program = Program {
    name: "runner",
    writes: "report",
};

fn main(rt: HostRuntime) {
    // one byte more than the longest trace, so that a longer one is told from it
    let mut trace = [0u8; trace::LONGEST + 1];
    let mut text = [0u8; report::ROOM];
    RUNNER.answer(&rt, &mut rt.stdin(), &mut trace, &mut text, report::report);
}
