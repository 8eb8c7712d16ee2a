// The rows checked by the reader's rules: 10, then row by row, the first faulty one deciding.
ghost use Rattle.std.specs.Prelude.{◌≡◌, ◌≤◌, ◌<◌, ltb};
ghost use Rattle.trace.specs.Table.{item};
ghost use Rattle.trace.specs.Inner.Kinds.{number_of_kind};
ghost use Rattle.trace.specs.Inner.Known.{Bodied};
ghost use Rattle.writing.specs.Rows.{row_count, entries};
ghost use Rattle.writing.specs.Writing.{list_size, check_list};
ghost use Rattle.writing.specs.Inner.Lent.{lent};
ghost use Rattle.writing.specs.Inner.Checked.{MayCheck, BodyTurn, Inside, RowTurn, IsChecked};

use crate::record::LONGEST_BODY;
use crate::rows::Rows;
use trace::kind::RecordKind;
use trace::progress::{Progress, noted};
use trace::record::{HEADER_SIZE, Record};
use trace::rules::record_fault;
use trace::{Fault, LONGEST};

// What a list is refused for: a fault, the offset where the faulty record would have begun, and its row.
#[derive(Clone, Copy, Debug, PartialEq, Eq)]
pub struct Faulty {
    pub fault: Fault,
    pub offset: usize,
    pub row: usize,
}

// A body of a known kind, by the reader's rules: its fault, or what is known behind it.
fn one_body(r: Record, p: Progress, marks: &mut [u8; 256]) -> Result<Progress, Fault>
    requires { Bodied (number_of_kind r.kind) r.body.now × MayCheck p marks.old }
    ensures { BodyTurn (item (number_of_kind r.entry.kind) r.entry.body.now) p marks.old result marks.new }
{
    record_fault(r, p, marks)?;
    Ok(noted(r, p, marks))
}

impl<'a> Rows<'a> {
    // Whether the records have more bytes than a trace may have.
    fn too_long(self) -> bool
        ensures { result ≡ ltb 65536 (list_size (entries (lent self.entry))) }
    {
        let mut size = 0;
        for i in 0..self.count() {
            size += HEADER_SIZE + self.body_size(i);
            if size > LONGEST {
                return true;
            }
        }
        false
    }

    // Row i, where the rows before it are known: its fault, or what is known behind it.
    fn one_row(self, i: usize, p: Progress, marks: &mut [u8; 256]) -> Result<Progress, Fault>
        requires { (i < row_count (lent self)) × Inside (lent self) i p marks.old }
        ensures { RowTurn (lent self.entry) i p result marks.new }
    {
        let kind = RecordKind::try_from(self.kind(i))?;
        let mut body = [0u8; LONGEST_BODY];
        let end = self.body_in(i, &mut body);
        let record = Record {
            kind,
            body: &body[..end],
        };
        one_body(record, p, marks)
    }

    // The size of the records; or what the list is refused for.
    pub fn check(self) -> Result<usize, Faulty>
        ensures { IsChecked (check_list (entries (lent self.entry))) result }
    {
        if self.too_long() {
            return Err(Faulty {
                fault: Fault::Long,
                offset: 0,
                row: 0,
            });
        }
        let mut p = Progress::start();
        let mut marks = [0u8; 256];
        let n = self.count();
        for i in 0..n {
            p = self.one_row(i, p, &mut marks).map_err(|fault| Faulty {
                fault,
                offset: p.at,
                row: i,
            })?;
        }
        if n == 0 {
            return Err(Faulty {
                fault: Fault::Order,
                offset: 0,
                row: 0,
            });
        }
        Ok(p.at)
    }
}
