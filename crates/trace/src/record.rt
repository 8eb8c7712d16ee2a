// A record of a trace: its kind, and its body, which is a part of the trace.
ghost use Rattle.std.specs.Prelude.{◌≡◌, ◌+◌, ◌≤◌, length, take, drop};

use crate::kind::RecordKind;

// How many bytes a header has: length and kind.
pub const HEADER_SIZE: usize = 4;

#[derive(Clone, Copy)]
pub struct Record<'a> {
    pub kind: RecordKind,
    pub body: &'a [u8],
}

// The body of the record at an offset.
pub fn body(s: &[u8], at: usize, size: usize) -> &[u8]
    requires { at + 4 + size ≤ length s.now }
    ensures { result.now ≡ take size (drop (at + 4) s.now) }
{
    let start = at + HEADER_SIZE;
    &s[start..start + size]
}
