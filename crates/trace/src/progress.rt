// What is known after the records before an offset.
ghost use Rattle.std.specs.Prelude.{◌≡◌, ◌≤◌, length, set};
ghost use Rattle.trace.specs.Table.{item};
ghost use Rattle.trace.specs.Inner.Known.{shape_in, begun, moved, shaped, asked, MayNote, Noted};
ghost use Rattle.trace.specs.Inner.Kinds.{number_of_kind};

use crate::Facts;
use crate::kind::RecordKind;
use crate::record::{HEADER_SIZE, Record};

// The section of the events and drains, behind the others.
const ACTS_SECTION: u8 = 4;

// The section of the last record is a number, 0 before the first: their order is that of the numbers (`may_follow`).
#[derive(Clone, Copy)]
pub struct Progress {
    pub at: usize,
    pub section: u8,
    pub facts: Facts,
}

impl Progress {
    // Before the first record.
    pub fn start() -> Progress
        ensures { result ≡ begun }
    {
        Progress {
            at: 0,
            section: 0,
            facts: Facts {
                k: 0,
                q: 0,
                w: 0,
                requests: 0,
                acts_at: 0,
            },
        }
    }

    // Past a record of a section, whose body has a size.
    pub fn past(mut self, section: u8, size: usize) -> Progress
        requires { (self.at ≤ 65536) × (self.facts.acts_at ≤ 65536) × (size ≤ 65536) }
        ensures { result ≡ moved self section size }
    {
        self.at += HEADER_SIZE + size;
        self.section = section;
        if section < ACTS_SECTION {
            self.facts.acts_at += HEADER_SIZE + size;
        }
        self
    }

    pub fn with_shape(mut self, b: &[u8]) -> Progress
        requires { length b.now ≡ 3 }
        ensures { result ≡ shaped self (shape_in b.now) }
    {
        self.facts.k = b[0];
        self.facts.q = b[1];
        self.facts.w = b[2];
        self
    }

    pub fn with_request(mut self) -> Progress
        requires { self.facts.requests ≤ 256 }
        ensures { result ≡ asked self }
    {
        self.facts.requests += 1;
        self
    }
}

fn mark(address: u8, marks: &mut [u8; 256])
    ensures { marks.new ≡ set marks.old address 1 }
{
    marks[address as usize] = 1;
}

// Past a record that is not refused: its shape, a mark at its word's address, or one request more.
pub fn noted(r: Record, p: Progress, marks: &mut [u8; 256]) -> Progress
    requires { MayNote (number_of_kind r.kind) r.body.now p marks.old }
    ensures { Noted (item (number_of_kind r.entry.kind) r.entry.body.now) p marks.old result marks.new }
{
    let b = r.body;
    let next = p.past(r.kind.section(), b.len());
    match r.kind {
        RecordKind::Shape => next.with_shape(b),
        RecordKind::Word => {
            mark(b[0], marks);
            next
        }
        RecordKind::Request => next.with_request(),
        RecordKind::Event | RecordKind::Drain => next,
    }
}
