// The C names of `whetbracken`, in a static library: each slice is a pointer and a length. include/whetbracken.h declares them for C.
#![tactic(auto)]

ghost use Rattle.model.specs.Result.{lent};
ghost use Rattle.writing.specs.Rows.{rows};
ghost use Rattle.writing.specs.Promise.{Promised};
ghost use Rattle.whetbracken.specs.Interface.{Answered, Wrote, ItemsPrinted};

use whetbracken::Numbers;
use writing::Written;

#[unsafe(no_mangle)]
pub extern "C" fn whetbracken_model(
    trace: &[u8],
    replies: &mut [u64],
    marks: &mut [u8],
    order: &mut [u64],
    words: &mut [u64],
) -> Numbers
    ensures { Answered trace.now
        (lent replies.old marks.old order.old words.old) result
        (lent replies.new marks.new order.new words.new) }
{
    whetbracken::whetbracken_model(trace, replies, marks, order, words)
}

#[unsafe(no_mangle)]
pub extern "C" fn whetbracken_report(trace: &[u8], out: &mut [u8]) -> usize
    ensures { Wrote trace.now out.old result out.new }
{
    whetbracken::whetbracken_report(trace, out)
}

#[unsafe(no_mangle)]
pub extern "C" fn whetbracken_write(
    heads: &[u16],
    bytes: &[u8],
    words: &[u64],
    out: &mut [u8],
) -> Written
    ensures { Promised (rows heads.now bytes.now words.now) out.old result out.new }
{
    whetbracken::whetbracken_write(heads, bytes, words, out)
}

#[unsafe(no_mangle)]
pub extern "C" fn whetbracken_items(trace: &[u8], out: &mut [u8]) -> usize
    ensures { ItemsPrinted trace.now out.old result out.new }
{
    whetbracken::whetbracken_items(trace, out)
}
