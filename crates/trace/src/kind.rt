// The kinds of records: the table's columns "kind", section and "body" in code.
ghost use Rattle.std.specs.Prelude.{◌≡◌};
ghost use Rattle.trace.specs.Table.{kind_row, body_size};
ghost use Rattle.trace.specs.Inner.Kinds.{number_of_kind, KindTold};

use crate::Fault;

// A kind by the name of its records, with its number in the table.
#[derive(Clone, Copy, Debug, PartialEq, Eq)]
pub enum RecordKind {
    Shape = 1,
    Word,
    Request,
    Event,
    Drain,
}

impl RecordKind {
    // The section in which its records stand, from 1.
    #[tactic(auto, unfolding(crate::specs::Table::kind_row, crate::specs::Table::rows, crate::specs::Table::first_row))]
    pub fn section(self) -> u8
        ensures { result ≡ (kind_row (number_of_kind self)).section }
    {
        match self {
            RecordKind::Shape => 1,
            RecordKind::Word => 2,
            RecordKind::Request => 3,
            RecordKind::Event | RecordKind::Drain => 4,
        }
    }

    // How many bytes their bodies have.
    #[tactic(auto, unfolding(crate::specs::Table::kind_row, crate::specs::Table::rows, crate::specs::Table::first_row, crate::specs::Bytes::total))]
    pub fn body_size(self) -> usize
        ensures { result ≡ body_size (kind_row (number_of_kind self)) }
    {
        match self {
            RecordKind::Shape | RecordKind::Event => 3,
            RecordKind::Word => 9,
            RecordKind::Request => 19,
            RecordKind::Drain => 2,
        }
    }
}

impl From<RecordKind> for u16 {
    ghost from_gives = { λ kind n. n ≡ number_of_kind kind };

    fn from(kind: RecordKind) -> u16 {
        kind as u16
    }
}

impl TryFrom<u16> for RecordKind {
    type Error = Fault;

    ghost try_from_gives = { KindTold };

    fn try_from(n: u16) -> Result<RecordKind, Fault> {
        match n {
            1 => Ok(RecordKind::Shape),
            2 => Ok(RecordKind::Word),
            3 => Ok(RecordKind::Request),
            4 => Ok(RecordKind::Event),
            5 => Ok(RecordKind::Drain),
            _ => Err(Fault::Kind),
        }
    }
}
