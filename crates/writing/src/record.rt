// The records of rows, as bytes.
ghost use Rattle.std.specs.Prelude.{◌≡◌, ◌++◌, ◌+◌, ◌*◌, ◌≤◌, ◌<◌, length, get_or, take, drop};
ghost use Rattle.digits.specs.Inner.Buffer.{HasRoom, Writes, Printed};
ghost use Rattle.trace.specs.Table.{body_size};
ghost use Rattle.trace.specs.Write.{bytes as spelled};
ghost use Rattle.writing.specs.Rows.{row_count};
ghost use Rattle.writing.specs.Inner.Lent.{lent};
ghost use Rattle.writing.specs.Inner.Records.{row_at, body_at, record_at, records_to, RowIn};

use crate::rows::Rows;
use digits::LentBuffer;
use trace::kind::RecordKind;

// How many bytes the longest body has.
pub const LONGEST_BODY: usize = 19;

// A number in two bytes, least significant first.
#[tactic(auto, using(crate::proofs::Bytes::two_bytes))]
fn put_two(out: &mut LentBuffer, v: u16)
    requires { HasRoom out.old 2 }
    ensures { Writes out.old (spelled 2 v) out.new }
{
    out.bytes(&v.to_le_bytes());
}

// And in eight.
#[tactic(auto, using(crate::proofs::Bytes::eight_bytes))]
fn put_eight(out: &mut LentBuffer, v: u64)
    requires { HasRoom out.old 8 }
    ensures { Writes out.old (spelled 8 v) out.new }
{
    out.bytes(&v.to_le_bytes());
}

impl<'a> Rows<'a> {
    // The first one-byte numbers of row i, and its first eight-byte one.
    fn put_ones_and_eight(self, i: usize, ones: usize, out: &mut LentBuffer)
        requires ones_in { 10 * i + ones ≤ length (lent self).bytes }
        requires eight_in { 8 * i < length (lent self).words }
        requires room { HasRoom out.old (ones + 8) }
        ensures { Writes out.old
            (take ones (drop (10 * i) (lent self.entry).bytes) ++ spelled 8 (get_or (lent self.entry).words (8 * i + 0) 0))
            out.new }
    {
        out.bytes(self.ones(i, ones));
        put_eight(out, self.eight(i, 0));
    }

    // The size of the body of row i's record: nothing, where there is no such kind.
    pub fn body_size(self, i: usize) -> usize
        requires { 2 * i < length (lent self).heads }
        ensures { result ≡ body_size (row_at (lent self.entry) i) }
    {
        match RecordKind::try_from(self.kind(i)) {
            Ok(kind) => kind.body_size(),
            Err(_) => 0,
        }
    }

    // The body of row i's record: each field is the next of its width.
    pub fn put_body(self, i: usize, out: &mut LentBuffer)
        requires row_in { RowIn (lent self) i }
        requires room { HasRoom out.old (body_size (row_at (lent self) i)) }
        ensures { Writes out.old (body_at (lent self.entry) i) out.new }
    {
        let Ok(kind) = RecordKind::try_from(self.kind(i)) else {
            return;
        };
        match kind {
            RecordKind::Shape | RecordKind::Event => out.bytes(self.ones(i, 3)),
            RecordKind::Word => self.put_ones_and_eight(i, 1, out),
            RecordKind::Request => {
                self.put_ones_and_eight(i, 3, out);
                put_eight(out, self.eight(i, 1));
            }
            RecordKind::Drain => put_two(out, self.two(i)),
        }
    }

    // The body of row i's record at the start of an array with room for the longest, and its length.
    pub fn body_in(self, i: usize, out: &mut [u8; LONGEST_BODY]) -> usize
        requires { RowIn (lent self) i }
        ensures { Printed (body_at (lent self.entry) i) out.old out.new result }
    {
        let mut body = LentBuffer::new(out);
        self.put_body(i, &mut body);
        body.at
    }

    // Row i's record: the length of its body, its kind, its body.
    pub fn put_record(self, i: usize, out: &mut LentBuffer)
        requires row_in { RowIn (lent self) i }
        requires room { HasRoom out.old (4 + body_size (row_at (lent self) i)) }
        ensures { Writes out.old (record_at (lent self.entry) i) out.new }
    {
        put_two(out, self.body_size(i) as u16);
        put_two(out, self.kind(i));
        self.put_body(i, out);
    }

    // The records of all rows.
    pub fn put_records(self, out: &mut LentBuffer)
        requires { HasRoom out.old (length (records_to (lent self) (row_count (lent self)))) }
        ensures { Writes out.old (records_to (lent self.entry) (row_count (lent self.entry))) out.new }
    {
        let n = self.count();
        for i in 0..n {
            self.put_record(i, out);
        }
    }
}
