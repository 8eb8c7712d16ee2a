// Acts that are not refused, passed without a look at each: most of a long trace.
ghost use Rattle.std.specs.Prelude.{◌+◌, ◌≤◌, length};
ghost use Rattle.trace.specs.Inner.Known.{Passed, DrainsPassed, FourDrains};

use crate::acts::{DRAIN_SIZE, EVENT_SIZE};
use crate::bytes::{number4, number8};
use crate::kind::RecordKind;
use crate::masked::{fixed_bits, is_event, steps_of};

// A drain's header, length and kind, as the one number that its four bytes spell.
const DRAIN_HEADER: u64 = 2 + 65536 * RecordKind::Drain as u64;

const FOUR_DRAINS: usize = 4 * DRAIN_SIZE;

const EIGHT_DRAINS: usize = 8 * DRAIN_SIZE;

// The end of the events and drains that are not refused, from an offset on, as far as eight bytes can be read at once: the last record
// of a trace is left.
pub fn acts_end(s: &[u8], at: usize, k: u8) -> usize
    requires { (at ≤ length s.now) × (length s.now ≤ 65536) × (k ≤ 4) }
    ensures { Passed s.now k at result }
{
    let fixed = fixed_bits(k);
    let named = steps_of(k);
    // no range: an event and a run of drains are passed by strides of their own
    let mut i = at;
    while s.len() - i >= 8 {
        let w = number8(s, i);
        if is_event(w, fixed, named) {
            i += EVENT_SIZE;
        } else if w % 4294967296 == DRAIN_HEADER {
            i = past_drains(s, i + DRAIN_SIZE);
        } else {
            return i;
        }
    }
    i
}

// Past drains, eight at a stride: a trace may end in thousands of them. Those that are left are passed one by one.
fn past_drains(s: &[u8], at: usize) -> usize
    requires { (at ≤ length s.now) × (length s.now ≤ 65536) }
    ensures { DrainsPassed s.now at result }
{
    let mut i = at;
    // the kind of the eighth first: that byte tells most runs that are shorter
    while s.len() - i >= EIGHT_DRAINS
        && s[i + EIGHT_DRAINS - DRAIN_SIZE + 2] == RecordKind::Drain as u8
        && four_drains(s, i) & four_drains(s, i + FOUR_DRAINS)
    {
        i += EIGHT_DRAINS;
    }
    i
}

fn four_drains(s: &[u8], i: usize) -> bool
    requires { i + 24 ≤ length s.now }
    ensures { FourDrains s.now i result }
{
    // `&` in place of `&&`: one jump in place of four, so that the time hangs less on where the code lies
    (number4(s, i) == DRAIN_HEADER)
        & (number4(s, i + DRAIN_SIZE) == DRAIN_HEADER)
        & (number4(s, i + 2 * DRAIN_SIZE) == DRAIN_HEADER)
        & (number4(s, i + 3 * DRAIN_SIZE) == DRAIN_HEADER)
}
