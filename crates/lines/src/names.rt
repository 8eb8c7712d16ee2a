// The names in lines: of records, and of numbers that have names.
ghost use Rattle.std.specs.Prelude.{◌≡◌, nat_eq, position};
ghost use Rattle.std.specs.Cmp.Lexicographic.{pointwise};
ghost use Rattle.std.specs.Option.{option_map};
ghost use Rattle.trace.specs.Inner.Kinds.{number_of_kind};
ghost use Rattle.lines.specs.Forms.{names_at};
ghost use Rattle.lines.specs.Inner.Told.{kind_told, named_in};

use trace::kind::RecordKind;

const RECORDS: [&[u8]; 5] = [b"shape", b"word", b"request", b"event", b"drain"];

// The names of the operations, and of the steps that an event is, from 0.
pub const OPERATIONS: [&[u8]; 4] = [b"load", b"swap", b"add", b"mask"];

pub const WHATS: [&[u8]; 5] = [b"issue", b"forward", b"module", b"return", b"collect"];

// The kind of the records of a name: kinds count from 1.
pub fn kind_named(name: &[u8]) -> Option<RecordKind>
    ensures { option_map number_of_kind result ≡ kind_told name.now }
{
    let place = place_among(name, &RECORDS)?;
    RecordKind::try_from(place as u16 + 1).ok()
}

// What a name stands for in a field of a kind's record: an operation is named in requests, a what in events.
pub fn named_at(kind: RecordKind, place: usize, name: &[u8]) -> Option<usize>
    ensures { result ≡ named_in (names_at (number_of_kind kind) place) name.now }
{
    match (kind, place) {
        (RecordKind::Request, 1) => place_among(name, &OPERATIONS),
        (RecordKind::Event, 0) => place_among(name, &WHATS),
        _ => None,
    }
}

// The place of a name among names.
fn place_among(name: &[u8], names: &[&[u8]]) -> Option<usize>
    ensures { result ≡ position (λ other. pointwise nat_eq name.now other.now) names.now }
{
    names.iter().position(|other| name == *other)
}
