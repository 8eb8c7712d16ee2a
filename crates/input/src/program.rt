// What a program does that reads standard input and writes what it makes of it.
ghost use Rattle.std.specs.Prelude.{◌≡◌, ◌≤◌, ◌⊎◌, ℕ, length, take, Option, Some, None, IfSome, IfNone};
ghost use Rattle.input.specs.Inner.Told.{ReadWhole, MadeOf};

use crate::read_all;
use std::io::{Print, Read};

// Its name, and what it writes, as standard error is told of it.
#[derive(Clone, Copy)]
pub struct Program {
    pub name: &'static str,
    pub writes: &'static str,
}

impl Program {
    // Standard input at the start of a lent buffer, and how many bytes it has; that it cannot be read is told.
    fn read<R: Read>(self, rt: &impl Eprint, reader: &mut R, input: &mut [u8]) -> Option<usize>
        ensures { IfSome result (λ n. ReadWhole (R.remaining reader.old) (R.remaining reader.new) n input.new) }
    {
        let read = read_all(reader, input);
        if read.is_none() {
            let name = self.name;
            // where standard error cannot be written, there is nobody to tell
            let _told = eprintln!(rt; "{name}: standard input cannot be read");
        }
        read
    }

    // What was made of the input, to standard output; that it cannot be written is told.
    fn write(self, rt: &(impl Print + Eprint), text: &[u8]) {
        if rt.write_all(text).is_err() {
            let name = self.name;
            let writes = self.writes;
            let _told = eprintln!(rt; "{name}: the {writes} cannot be written");
        }
    }

    // What `text_of` makes of the whole input, to standard output, and how long it is; none where the input cannot be read, or it makes none.
    pub fn answer<R: Read, F: FnOnce(&[u8], &mut [u8]) -> Option<usize>>(
        self,
        rt: &(impl Print + Eprint),
        reader: &mut R,
        input: &mut [u8],
        text: &mut [u8],
        text_of: F,
    ) -> Option<usize>
        requires callable { F.IsAlwaysCallable text_of }
        requires fits { (bytes : _) (before : _) (made : Option ℕ) (after : _) → F.post text_of bytes before made after
            → IfSome made (λ m. m ≤ length after.now) }
        ensures made { IfSome result (λ m. (n : ℕ) × ReadWhole (R.remaining reader.old) (R.remaining reader.new) n input.new
            × MadeOf (F.post text_of) (take n input.new) text.old (Some m) text.new) }
        ensures none { IfNone result ((text.new ≡ text.old)
            ⊎ ((n : ℕ) × ReadWhole (R.remaining reader.old) (R.remaining reader.new) n input.new
            × MadeOf (F.post text_of) (take n input.new) text.old None text.new)) }
    {
        let n = self.read(rt, reader, input)?;
        let len = text_of(&input[..n], text)?;
        self.write(rt, &text[..len]);
        Some(len)
    }
}
