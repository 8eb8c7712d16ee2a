// What the writer makes of a text, in two lent buffers: the trace, or the line that is told instead.
ghost use Rattle.std.specs.Prelude.{◌≡◌, ◌≤◌, length};
ghost use Rattle.writing.specs.Rows.{rows, entries};
ghost use Rattle.writing.specs.Writing.{result as list_result};
ghost use Rattle.writer.specs.Told.{told_room, line_refused};
ghost use Rattle.writer.specs.Made.{list_made, text_made, MadeIn};

use crate::told::{put_refused, put_wrong};
use reading::row::{BYTES, HEADS, WORDS};

// One row more than the longest trace has records, of six bytes at the least, so that a longer list is refused by 10.
const ROWS: usize = 10923;

// The number of the line that a refusal is about; none where it is about the list: 10, and an empty list.
#[tactic(auto, unfolding(crate::specs::Told::line_refused))]
fn line_refused(text: &[u8], refusal: u64, row: u64) -> Option<usize>
    ensures { result ≡ line_refused text.now refusal row }
{
    if refusal == 10 {
        return None;
    }
    reading::line_of(text, row as usize)
}

// What is made of rows that say the items of a text: three slices, as the public `write` takes them for C.
fn rows_made(
    text: &[u8],
    heads: &[u16],
    bytes: &[u8],
    words: &[u64],
    out: &mut [u8],
    told: &mut [u8],
) -> Result<usize, usize>
    requires { (length out.old ≡ 65536) × (told_room ≤ length told.old) }
    ensures { MadeIn (list_made text.now (list_result (entries (rows heads.now bytes.now words.now)) 65536)) result
        out.new told.new }
{
    let written = writing::write(heads, bytes, words, out);
    if written.refusal != 0 {
        let line = line_refused(text, written.refusal, written.row);
        return Err(put_refused(told, written.refusal, written.offset, line));
    }
    Ok(written.len as usize)
}

// What is made of a text: the first line that is no item is told; else its items are written or refused. The length of the trace is the
// result, or, where it is none, that of the line that is told.
pub fn text_made(text: &[u8], out: &mut [u8], told: &mut [u8]) -> Result<usize, usize>
    requires { (length out.old ≡ 65536) × (told_room ≤ length told.old) }
    ensures { MadeIn (text_made text.now) result out.new told.new }
{
    let mut heads = [0u16; HEADS * ROWS];
    let mut bytes = [0u8; BYTES * ROWS];
    let mut words = [0u64; WORDS * ROWS];
    match reading::read(text, &mut heads, &mut bytes, &mut words) {
        Err(line) => Err(put_wrong(told, line)),
        Ok(n) => rows_made(
            text,
            &heads[..HEADS * n],
            &bytes[..BYTES * n],
            &words[..WORDS * n],
            out,
            told,
        ),
    }
}
