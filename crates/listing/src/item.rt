// The line of an item, by its record's body: a function for each kind.
ghost use Rattle.std.specs.Prelude.{◌≡◌, true, ◌+◌, ◌*◌, length};
ghost use Rattle.digits.specs.Inner.Buffer.{HasRoom, WritesWithin};
ghost use Rattle.event.specs.Event.{event, drain};
ghost use Rattle.trace.specs.Bytes.{number};
ghost use Rattle.trace.specs.Item.{shape, word, request, act};
ghost use Rattle.trace.specs.Table.{item, is_row, body_row};
ghost use Rattle.trace.specs.Inner.Kinds.{number_of_kind};
ghost use Rattle.trace.specs.Inner.Known.{shape_in, word_in, request_in, event_in};
ghost use Rattle.listing.specs.Listing.{item_line};

use crate::field::{put_named, put_what};
use digits::LentBuffer;
use lines::OPERATIONS;
use trace::bytes::{number2, number8};
use trace::kind::RecordKind;
use trace::record::Record;

// The line of a record, by its kind and its body.
pub fn put_item(r: Record, out: &mut LentBuffer)
    requires row { is_row (body_row (number_of_kind r.kind) (length r.body.now)) ≡ true }
    requires room { HasRoom out.old (4 * (4 + length r.body.now)) }
    ensures { WritesWithin (4 * (4 + length r.entry.body.now)) out.old (item_line (item (number_of_kind r.entry.kind) r.entry.body.now)) out.new }
{
    let b = r.body;
    match r.kind {
        RecordKind::Shape => put_shape(b, out),
        RecordKind::Word => put_word(b, out),
        RecordKind::Request => put_request(b, out),
        RecordKind::Event => put_event(b, out),
        RecordKind::Drain => put_drain(b, out),
    }
}

fn put_shape(b: &[u8], out: &mut LentBuffer)
    requires long { length b.now ≡ 3 }
    requires room { HasRoom out.old 28 }
    ensures { WritesWithin 28 out.old (item_line (shape (shape_in b.now))) out.new }
{
    out.line(b"shape", &[b[0] as u64, b[1] as u64, b[2] as u64]);
}

fn put_word(b: &[u8], out: &mut LentBuffer)
    requires long { length b.now ≡ 9 }
    requires room { HasRoom out.old 52 }
    ensures { WritesWithin 52 out.old (item_line (word (word_in b.now))) out.new }
{
    out.line(b"word", &[b[0] as u64, number8(b, 1)]);
}

fn put_request(b: &[u8], out: &mut LentBuffer)
    requires long { length b.now ≡ 19 }
    requires room { HasRoom out.old 92 }
    ensures { WritesWithin 92 out.old (item_line (request (request_in b.now))) out.new }
{
    out.field(b"request", b' ');
    out.number(b[0] as u64, b' ');
    put_named(out, &OPERATIONS, b[1]);
    out.number(b[2] as u64, b' ');
    out.number(number8(b, 3), b' ');
    out.number(number8(b, 11), b'\n');
}

fn put_event(b: &[u8], out: &mut LentBuffer)
    requires long { length b.now ≡ 3 }
    requires room { HasRoom out.old 28 }
    ensures { WritesWithin 28 out.old (item_line (act (event (event_in b.now)))) out.new }
{
    out.field(b"event", b' ');
    put_what(out, b[0]);
    out.number(b[1] as u64, b' ');
    out.number(b[2] as u64, b'\n');
}

fn put_drain(b: &[u8], out: &mut LentBuffer)
    requires long { length b.now ≡ 2 }
    requires room { HasRoom out.old 24 }
    ensures { WritesWithin 24 out.old (item_line (act (drain (number 2 b.now 0)))) out.new }
{
    out.line(b"drain", &[number2(b, 0)]);
}
