// The reader: the trace and the offset of its next record.
ghost use Rattle.std.specs.Prelude.{◌≡◌, ◌≤◌, length};
ghost use Rattle.trace.specs.Inner.Told.{HeadRead};

use crate::Fault;
use crate::bytes::number2;
use crate::kind::RecordKind;
use crate::record::{HEADER_SIZE, Record, body};

#[derive(Clone, Copy)]
pub struct Reader<'a> {
    pub src: &'a [u8],
    pub at: usize,
}

impl<'a> Reader<'a> {
    pub fn new(src: &'a [u8], at: usize) -> Reader<'a>
        ensures { (result.src ≡ src.entry) × (result.at ≡ at) }
    {
        Reader { src, at }
    }

    // The record that is due, `None` at the end; or the fault that it has in itself.
    pub fn head(self) -> Result<Option<Record<'a>>, Fault>
        requires { self.at ≤ length self.src.now }
        ensures { HeadRead self.entry.src.now self.entry.at result }
    {
        let left = self.src.len() - self.at;
        if left == 0 {
            return Ok(None);
        }
        if left < HEADER_SIZE {
            return Err(Fault::Cut);
        }
        let kind = RecordKind::try_from(number2(self.src, self.at + 2) as u16)?;
        let size = kind.body_size();
        if number2(self.src, self.at) != size as u64 {
            return Err(Fault::Length);
        }
        if left - HEADER_SIZE < size {
            return Err(Fault::Cut);
        }
        Ok(Some(Record {
            kind,
            body: body(self.src, self.at, size),
        }))
    }
}
