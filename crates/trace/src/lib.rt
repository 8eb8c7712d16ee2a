// The records of a trace, and what each is refused for: document 01, "Trace records" and "What a trace is told".
#![tactic(auto)]

ghost use Rattle.std.specs.Prelude.{◌≡◌};
ghost use Rattle.trace.specs.Answers.{number_of};

pub mod acts;
pub mod bytes;
pub mod kind;
mod masked;
pub mod passed;
pub mod progress;
pub mod reader;
pub mod record;
pub mod rules;

// How many bytes the longest trace has.
pub const LONGEST: usize = 65536;

// What a trace is refused for, each with the paper's number.
#[derive(Clone, Copy, Debug, PartialEq, Eq)]
pub enum Fault {
    Cut = 1,
    Kind,
    Length,
    Order,
    Range,
    Twice,
    Operand,
    Step,
    Many,
    Long,
}

// What an accepted trace says of itself: its shape, how many requests it has, and the offset of its first act.
#[derive(Clone, Copy, Debug, PartialEq, Eq)]
pub struct Facts {
    pub k: u8,
    pub q: u8,
    pub w: u8,
    pub requests: usize,
    pub acts_at: usize,
}

// What a trace is refused for, and the offset of the faulty record.
#[derive(Clone, Copy, Debug, PartialEq, Eq)]
pub struct Refusal {
    pub fault: Fault,
    pub offset: usize,
}

// The paper's number of a fault.
pub fn number_of(f: Fault) -> u8
    ensures { result ≡ number_of f }
{
    f as u8
}

impl From<Fault> for u64 {
    ghost from_gives = { λ f n. n ≡ number_of f };

    fn from(f: Fault) -> u64 {
        f as u64
    }
}
