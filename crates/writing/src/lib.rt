// The writer of traces: the records of a list of items, checked by the reader's rules. Request No. 1 of document 02.
#![tactic(auto)]

ghost use Rattle.std.specs.Prelude.{◌≡◌};
ghost use Rattle.writing.specs.Rows.{rows};
ghost use Rattle.writing.specs.Promise.{Promised};
ghost use Rattle.writing.specs.Inner.Checked.{refused_row};

use check::Faulty;
use digits::LentBuffer;
use rows::Rows;

mod check;
mod record;
mod rows;

// What came of a list, as the C interface gives it: 0 and how many bytes were written; or the refusal's number, the offset where the
// faulty record would have begun, and its row.
#[repr(C)]
#[derive(Clone, Copy)]
pub struct Written {
    pub refusal: u64,
    pub offset: u64,
    pub row: u64,
    pub len: u64,
}

// The refusal of an output that is too short for the records.
const SHORT: u64 = 12;

impl From<Faulty> for Written {
    ghost from_gives = { λ f w. w ≡ refused_row f };

    fn from(f: Faulty) -> Written {
        Written {
            refusal: u64::from(f.fault),
            offset: f.offset as u64,
            row: f.row as u64,
            len: 0,
        }
    }
}

// The records of a list of items at the start of a lent output. A row has two numbers of two bytes, its record's kind first, ten of one
// byte and eight of eight bytes; each field of the record is the next of its width, and what the kind does not use is not looked at.
pub fn write(heads: &[u16], bytes: &[u8], words: &[u64], out: &mut [u8]) -> Written
    ensures { Promised (rows heads.now bytes.now words.now) out.old result out.new }
{
    let list = Rows::new(heads, bytes, words);
    match list.check() {
        Err(faulty) => Written::from(faulty),
        Ok(size) if out.len() < size => Written {
            refusal: SHORT,
            offset: 0,
            row: 0,
            len: 0,
        },
        Ok(size) => {
            list.put_records(&mut LentBuffer::new(out));
            Written {
                refusal: 0,
                offset: 0,
                row: 0,
                len: size as u64,
            }
        }
    }
}
