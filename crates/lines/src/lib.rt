// What a line says: request No. 1 of document 02.
#![tactic(auto)]

ghost use Rattle.std.specs.Prelude.{◌≡◌, get_or, eqb};
ghost use Rattle.trace.specs.Inner.Kinds.{number_of_kind};
ghost use Rattle.lines.specs.Said.{fields};
ghost use Rattle.lines.specs.Inner.Read.{kind_says, SaidRead, LineRead};

use bounds::split_field;
use field::{field_count, field_told};
use names::kind_named;
use trace::kind::RecordKind;

mod bounds;
mod field;
mod names;

pub use names::{OPERATIONS, WHATS};

// Why a line is no item: no record has its first field for a name; or a field of the record is not there, is one too many, is no
// number, or is one that its bytes do not hold.
#[derive(Clone, Copy, Debug, PartialEq, Eq)]
pub enum Reason {
    Name,
    Missing,
    Extra,
    NoNumber,
    TooLarge,
}

// That a line is no item: why, and the field, 0 for the name.
#[derive(Clone, Copy, Debug, PartialEq, Eq)]
pub struct Wrong {
    pub reason: Reason,
    pub place: usize,
}

// A request has the most fields.
pub const MOST_FIELDS: usize = 5;

pub type Values = [u64; MOST_FIELDS];

// What a line says: nothing; or an item of a kind, whose numbers stand at the front of the values.
pub fn line_says(line: &[u8], values: &mut Values) -> Result<Option<RecordKind>, Wrong>
    ensures { LineRead line.now result values.new }
{
    if is_comment(line) {
        return Ok(None);
    }
    let Some((name, rest)) = split_field(line) else {
        return Ok(None);
    };
    let wrong = Wrong {
        reason: Reason::Name,
        place: 0,
    };
    let kind = kind_named(name).ok_or(wrong)?;
    fields_say(rest, kind, values)
}

fn is_comment(line: &[u8]) -> bool
    ensures { result ≡ eqb (get_or line.now 0 0) 35 }
{
    line.first() == Some(&b'#')
}

// What the fields behind the name of a kind say, field by field.
fn fields_say(
    line: &[u8],
    kind: RecordKind,
    values: &mut Values,
) -> Result<Option<RecordKind>, Wrong>
    ensures { SaidRead (kind_says (number_of_kind kind) (fields line.now)) result values.new }
{
    let count = field_count(kind);
    let mut rest = line;
    for place in 0..count {
        let Some((field, behind)) = split_field(rest) else {
            return Err(Wrong {
                reason: Reason::Missing,
                place: place + 1,
            });
        };
        rest = behind;
        values[place] = field_told(kind, place, field).map_err(|reason| Wrong {
            reason,
            place: place + 1,
        })?;
    }
    match split_field(rest) {
        Some(_) => Err(Wrong {
            reason: Reason::Extra,
            place: count + 1,
        }),
        None => Ok(Some(kind)),
    }
}
