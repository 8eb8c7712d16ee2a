// Standard input, read to its end into a lent buffer, and what programs share that read it.
#![tactic(auto)]

ghost use Rattle.std.specs.Prelude.{IfSome};
ghost use Rattle.input.specs.Inner.Told.{ReadWhole};

pub use program::Program;
use std::io::Read;

mod program;

// How many reads may fail before the input counts as one that cannot be read, and the one that finds the end.
const SPARE: usize = 17;

// Reads to the end of the input, or until there is no more room, and tells how many bytes were read; nothing where neither was reached.
// A read of 0 bytes is the end; one that fails is tried again, and as many reads as there are bytes of room, and 17, are made at the most.
pub fn read_all<R: Read>(reader: &mut R, buffer: &mut [u8]) -> Option<usize>
    ensures { IfSome result (λ n. ReadWhole (R.remaining reader.old) (R.remaining reader.new) n buffer.new) }
{
    let mut got = 0;
    for _ in 0..buffer.len() + SPARE {
        if got == buffer.len() {
            return Some(got);
        }
        match reader.read(&mut buffer[got..]) {
            Ok(0) => return Some(got),
            Ok(more) => got += more,
            Err(_) => {}
        }
    }
    None
}
