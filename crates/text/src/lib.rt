// The report's text, as bytes in a lent buffer: document 01, "A session given whole".
#![tactic(auto)]

ghost use Rattle.std.specs.Prelude.{◌*◌, ◌≤◌, length};
ghost use Rattle.digits.specs.Inner.Buffer.{HasRoom, WritesWithin};
ghost use Rattle.text.specs.Text.{reply_line, order_line, word_line, reply_lines, order_lines, word_lines, count_lines, refused_text, line_room};

use digits::LentBuffer;

// The text of a refused trace.
pub fn put_refused(out: &mut LentBuffer, number: u64, offset: u64)
    requires { HasRoom out.old line_room }
    ensures { WritesWithin line_room out.old (refused_text number offset) out.new }
{
    out.line(b"refused", &[number, offset]);
}

// ---- the sections of an accepted trace's text, one behind another: document 01, "A session given whole"

// Values and marks are two slices, as the C interface lends them.
pub fn put_replies(out: &mut LentBuffer, values: &[u64], marks: &[u8])
    requires marked { length values.now ≤ length marks.now }
    requires room { HasRoom out.old (line_room * length values.now) }
    ensures { WritesWithin (line_room * length values.now) out.old (reply_lines (length values.now) values.now marks.now) out.new }
{
    for (tag, value) in values.iter().enumerate() {
        put_reply(out, tag as u64, *value, marks[tag]);
    }
}

pub fn put_orders(out: &mut LentBuffer, order: &[u64])
    requires { HasRoom out.old (line_room * length order.now) }
    ensures { WritesWithin (line_room * length order.now) out.old (order_lines (length order.now) order.now) out.new }
{
    for tag in order {
        put_order(out, *tag);
    }
}

pub fn put_words(out: &mut LentBuffer, words: &[u64; 256], named: &[u8; 256])
    requires { HasRoom out.old (line_room * 256) }
    ensures { WritesWithin (line_room * 256) out.old (word_lines 256 words.now named.now) out.new }
{
    for (address, value) in words.iter().enumerate() {
        put_word(out, address as u64, *value, named[address]);
    }
}

pub fn put_counts(out: &mut LentBuffer, accesses: u64, merges: u64, rounds: u64)
    requires { HasRoom out.old (line_room * 3) }
    ensures { WritesWithin (line_room * 3) out.old (count_lines accesses merges rounds) out.new }
{
    out.line(b"access", &[accesses]);
    out.line(b"merge", &[merges]);
    out.line(b"rounds", &[rounds]);
}

fn put_reply(out: &mut LentBuffer, tag: u64, value: u64, mark: u8)
    requires { HasRoom out.old line_room }
    ensures { WritesWithin line_room out.old (reply_line tag value mark) out.new }
{
    out.field(b"reply", b' ');
    out.number(tag, b' ');
    if mark == 0 {
        out.field(b"-", b'\n');
    } else {
        out.number(value, b'\n');
    }
}

fn put_order(out: &mut LentBuffer, tag: u64)
    requires { HasRoom out.old line_room }
    ensures { WritesWithin line_room out.old (order_line tag) out.new }
{
    out.line(b"order", &[tag]);
}

fn put_word(out: &mut LentBuffer, address: u64, value: u64, named: u8)
    requires { HasRoom out.old line_room }
    ensures { WritesWithin line_room out.old (word_line address value named) out.new }
{
    if named != 0 {
        out.line(b"word", &[address, value]);
    }
}
