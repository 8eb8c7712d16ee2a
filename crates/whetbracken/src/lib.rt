// The C interface: the public entry, the report, the writer and the listing under C names. whetbracken_c exports them, each slice a pointer
// and a length; include/whetbracken.h declares them for C.
#![tactic(auto)]

ghost use Rattle.std.specs.Prelude.{◌≡◌};
ghost use Rattle.model.specs.Result.{lent};
ghost use Rattle.model.specs.Promise.{says};
ghost use Rattle.writing.specs.Rows.{rows};
ghost use Rattle.writing.specs.Promise.{Promised};
ghost use Rattle.whetbracken.specs.Interface.{numbers, Answered, Wrote, ItemsPrinted};

use model::{Counts, Refusal};
use writing::Written;

// What a trace is told, as numbers: 0 and the four counts of the run, or the refusal's number and its offset.
#[repr(C)]
#[derive(Clone, Copy, Default)]
pub struct Numbers {
    pub refusal: u64,
    pub offset: u64,
    pub ordered: u64,
    pub accesses: u64,
    pub merges: u64,
    pub rounds: u64,
}

// What is not told is 0.
impl From<Result<Counts, Refusal>> for Numbers {
    ghost from_gives = { λ told n. n ≡ numbers (says told) };

    fn from(told: Result<Counts, Refusal>) -> Numbers {
        match told {
            Ok(c) => Numbers {
                ordered: c.ordered as u64,
                accesses: c.accesses,
                merges: c.merges,
                rounds: c.rounds,
                ..Numbers::default()
            },
            Err(Refusal::Trace(r)) => Numbers {
                refusal: u64::from(r.fault),
                offset: r.offset as u64,
                ..Numbers::default()
            },
            Err(Refusal::NoRoom) => Numbers {
                refusal: 11,
                ..Numbers::default()
            },
        }
    }
}

// What a trace is told, with what its run gives in the lent reply values, reply marks, order places and words.
pub fn whetbracken_model(
    trace: &[u8],
    replies: &mut [u64],
    marks: &mut [u8],
    order: &mut [u64],
    words: &mut [u64],
) -> Numbers
    ensures { Answered trace.now
        (lent replies.old marks.old order.old words.old) result
        (lent replies.new marks.new order.new words.new) }
{
    Numbers::from(model::model(trace, replies, marks, order, words))
}

// The report of a trace at the start of a lent buffer, and its length: 0 where the buffer has no room for every report.
pub fn whetbracken_report(trace: &[u8], out: &mut [u8]) -> usize
    ensures { Wrote trace.now out.old result out.new }
{
    report::report(trace, out).unwrap_or(0)
}

// The records of a list of items at the start of a lent output; a row of the list stands in three slices.
pub fn whetbracken_write(heads: &[u16], bytes: &[u8], words: &[u64], out: &mut [u8]) -> Written
    ensures { Promised (rows heads.now bytes.now words.now) out.old result out.new }
{
    writing::write(heads, bytes, words, out)
}

// The items of a trace as lines at the start of a lent buffer, and their length: 0 where the buffer has no room for every listing.
pub fn whetbracken_items(trace: &[u8], out: &mut [u8]) -> usize
    ensures { ItemsPrinted trace.now out.old result out.new }
{
    listing::listing(trace, out).unwrap_or(0)
}
