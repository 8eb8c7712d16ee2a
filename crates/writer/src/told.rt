// The lines that are told on standard error, in a lent buffer: a line that is no item, and a list that is refused.
ghost use Rattle.std.specs.Prelude.{[], ◌∷◌, ◌++◌, ◌≤◌, length};
ghost use Rattle.digits.specs.Numeral.{bytes_of, decimal};
ghost use Rattle.digits.specs.Line.{line};
ghost use Rattle.digits.specs.Inner.Buffer.{HasRoom, Wrote, WritesWithin};
ghost use Rattle.writer.specs.Told.{told_room, reason_fields, wrong_text, refused_text};

use digits::LentBuffer;
use lines::Reason;
use reading::WrongLine;

// No line is longer.
pub const ROOM: usize = 128;

// A number, and the byte behind it.
fn put_number(out: &mut LentBuffer, n: u64, behind: u8)
    requires { HasRoom out.old 21 }
    ensures { WritesWithin 21 out.old (decimal n ++ (behind ∷ [])) out.new }
{
    out.number(n, behind);
}

// A field of a record, and what is wrong with it.
fn put_place(out: &mut LentBuffer, place: u64, wrong: &[u8])
    requires { HasRoom out.old 48 × (length wrong.now ≤ 16) }
    ensures { WritesWithin 48 out.old (line (bytes_of "field" ∷ decimal place ∷ wrong.now ∷ [])) out.new }
{
    out.field(b"field", b' ');
    put_number(out, place, b' ');
    out.field(wrong, b'\n');
}

// Why a line is no item.
fn put_reason(out: &mut LentBuffer, reason: Reason, place: u64)
    requires { HasRoom out.old 48 }
    ensures { WritesWithin 48 out.old (line (reason_fields reason place)) out.new }
{
    match reason {
        Reason::Name => out.field(b"no such record", b'\n'),
        Reason::Missing => put_place(out, place, b"is missing"),
        Reason::Extra => put_place(out, place, b"is one too many"),
        Reason::NoNumber => put_place(out, place, b"is no number"),
        Reason::TooLarge => put_place(out, place, b"is too large"),
    }
}

// A line is no item, and why.
pub fn put_wrong(out: &mut [u8], line: WrongLine) -> usize
    requires { told_room ≤ length out.old }
    ensures { Wrote out.old 0 (wrong_text line.number line.wrong.reason line.wrong.place) out.new result × (result ≤ told_room) }
{
    let mut told = LentBuffer::new(out);
    told.field(b"line", b' ');
    put_number(&mut told, line.number as u64, b':');
    told.byte(b' ');
    put_reason(&mut told, line.wrong.reason, line.wrong.place as u64);
    told.at
}

// A list is refused, at an offset, for the line of a number; for none where it is refused as a whole.
pub fn put_refused(out: &mut [u8], refusal: u64, offset: u64, line: Option<usize>) -> usize
    requires { told_room ≤ length out.old }
    ensures { Wrote out.old 0 (refused_text refusal offset line) out.new result × (result ≤ told_room) }
{
    let mut told = LentBuffer::new(out);
    told.field(b"refused", b' ');
    put_number(&mut told, refusal, b' ');
    let Some(number) = line else {
        put_number(&mut told, offset, b'\n');
        return told.at;
    };
    put_number(&mut told, offset, b' ');
    told.field(b"line", b' ');
    put_number(&mut told, number as u64, b'\n');
    told.at
}
