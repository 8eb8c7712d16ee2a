// An event that names a step, told by one masked compare of eight bytes and a look into a set of steps.
ghost use Rattle.std.specs.Prelude.{◌≤◌};
ghost use Rattle.trace.specs.Inner.Masked.{Mask, Steps, TellsEvent};

use crate::kind::RecordKind;

// An event's header, length and kind, as the one number that its four bytes spell.
const EVENT_HEADER: u64 = 3 + 65536 * RecordKind::Event as u64;

// Whether eight bytes begin with an event that names a step.
pub fn is_event(w: u64, fixed: u64, named: u64) -> bool
    ensures { TellsEvent w fixed named result }
{
    if w & fixed != EVENT_HEADER {
        return false;
    }
    let what = (w >> 32) % 8;
    let level = (w >> 40) % 8;
    (named >> (8 * level + what)) % 2 == 1
}

// The bits of a header, and those that are 0 where what and level are below 8 and the position is below N.
pub fn fixed_bits(k: u8) -> u64
    requires { k ≤ 8 }
    ensures { Mask k result }
{
    0xf8f8ffffffff + ((256 - (1u64 << k)) << 48)
}

// Bit 8 * level + what is 1 where the pair names a step: issue and collect at level 0; forward at 1 to k-1; module at k; return at 1
// to k. No shape has k = 0: its set is there so that k at most 4 is all that is asked.
pub fn steps_of(k: u8) -> u64
    requires { k ≤ 4 }
    ensures { Steps k result }
{
    match k {
        0 => 0x15,
        1 => 0xc11,
        2 => 0xc0a11,
        3 => 0xc0a0a11,
        _ => 0xc0a0a0a11,
    }
}
