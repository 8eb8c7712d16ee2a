// The events and drains of an accepted trace, one by one.
ghost use Rattle.trace.specs.Inner.Acts.{ActsLeft, ActRead};

use crate::bytes::number2;
use crate::kind::RecordKind;
use crate::record::HEADER_SIZE;

// How many bytes a record of each has.
pub const EVENT_SIZE: usize = HEADER_SIZE + 3;

pub const DRAIN_SIZE: usize = HEADER_SIZE + 2;

// An event, or a drain's most rounds. `what` is a byte still: `act_at` is not told that it names a step, who runs the event is.
#[derive(Clone, Copy, Debug, PartialEq, Eq)]
pub enum Act {
    Event { what: u8, level: u8, position: u8 },
    Drain(u64),
}

// The act at an offset of an accepted trace, where only acts are left, `None` at the end: its header was checked, so its kind is told
// by one byte.
pub fn act_at(s: &[u8], at: usize) -> Option<Act>
    requires { ActsLeft s.now at }
    ensures { ActRead s.now at result }
{
    if at == s.len() {
        return None;
    }
    if s[at + 2] == RecordKind::Event as u8 {
        return Some(Act::Event {
            what: s[at + 4],
            level: s[at + 5],
            position: s[at + 6],
        });
    }
    Some(Act::Drain(number2(s, at + 4)))
}
