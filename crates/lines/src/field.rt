// The number that a field of a record has.
ghost use Rattle.std.specs.Prelude.{◌≡◌, ◌+◌, ◌<◌, ◌^◌, length};
ghost use Rattle.trace.specs.Table.{kind_row};
ghost use Rattle.trace.specs.Inner.Kinds.{number_of_kind};
ghost use Rattle.lines.specs.Inner.Told.{reason_of, number_told, width_at, told_at};

use crate::Reason;
use crate::names::named_at;
use digits::read::{NumberError, number_in};
use trace::kind::RecordKind;

impl From<NumberError> for Reason {
    ghost from_gives = { λ e reason. reason ≡ reason_of e };

    fn from(e: NumberError) -> Reason {
        match e {
            NumberError::NoNumber => Reason::NoNumber,
            NumberError::TooLarge => Reason::TooLarge,
        }
    }
}

// How many fields a kind's record has.
#[tactic(auto, unfolding(trace::specs::Table::kind_row, trace::specs::Table::rows, trace::specs::Table::first_row))]
pub fn field_count(kind: RecordKind) -> usize
    ensures { result ≡ length (kind_row (number_of_kind kind)).widths }
{
    match kind {
        RecordKind::Shape | RecordKind::Event => 3,
        RecordKind::Word => 2,
        RecordKind::Request => 5,
        RecordKind::Drain => 1,
    }
}

// The number of a field of a kind's record; a name may stand for it.
pub fn field_told(kind: RecordKind, place: usize, field: &[u8]) -> Result<u64, Reason>
    requires { place < length (kind_row (number_of_kind kind)).widths }
    ensures { result ≡ told_at (number_of_kind kind) place field.now }
{
    match named_at(kind, place, field) {
        Some(n) => Ok(n as u64),
        None => number_told(largest(kind, place), field),
    }
}

// The largest number that the bytes of a field hold.
fn largest(kind: RecordKind, place: usize) -> u64
    requires { place < length (kind_row (number_of_kind kind)).widths }
    ensures { result + 1 ≡ 256 ^ width_at (number_of_kind kind) place }
{
    match (kind, place) {
        (RecordKind::Word, 1) | (RecordKind::Request, 3 | 4) => u64::MAX,
        (RecordKind::Drain, _) => u16::MAX as u64,
        _ => u8::MAX as u64,
    }
}

// A number in decimal that is not above the largest of its width.
fn number_told(largest: u64, field: &[u8]) -> Result<u64, Reason>
    ensures { result ≡ number_told (largest + 1) field.now }
{
    let n = number_in(field)?;
    if n > largest {
        return Err(Reason::TooLarge);
    }
    Ok(n)
}
