// Lines, names and numbers, as bytes in a lent buffer: document 01, "A session given whole". Numbers are written in decimal.
#![tactic(auto)]

ghost use Rattle.std.specs.Prelude.{◌≡◌, [], ◌∷◌, ◌++◌, ◌+◌, ◌≤◌, ◌<◌, length, map};
ghost use Rattle.digits.specs.Numeral.{digit, decimal};
ghost use Rattle.digits.specs.Line.{line};
ghost use Rattle.digits.specs.Inner.Buffer.{HasRoom, Wrote, Writes};

pub mod read;

// A lent buffer, and the offset that it is written up to: what is put stands there, and the offset moves behind it.
#[derive(Drop)]
pub struct LentBuffer<'a> {
    bytes: &'a mut [u8],
    pub at: usize,
}

impl<'a> LentBuffer<'a> {
    // Nothing is written yet.
    pub fn new(bytes: &'a mut [u8]) -> LentBuffer<'a>
        ensures lent { result.bytes.ghost_name ≡ bytes.entry.ghost_name }
        ensures bytes { result.bytes.now ≡ bytes.old }
        ensures at { result.at ≡ 0 }
    {
        LentBuffer { bytes, at: 0 }
    }

    pub fn byte(&mut self, byte: u8)
        requires { HasRoom self.old 1 }
        ensures { Writes self.old (byte ∷ []) self.new }
    {
        self.bytes[self.at] = byte;
        self.at += 1;
    }

    pub fn bytes(&mut self, bytes: &[u8])
        requires { HasRoom self.old (length bytes.now) }
        ensures { Writes self.old bytes.now self.new }
    {
        let end = self.at + bytes.len();
        self.bytes[self.at..end].copy_from_slice(bytes);
        self.at = end;
    }

    // The same one by one: a name in the code becomes a store or two so, and one that a table tells is put without memmove of C.
    fn name(&mut self, name: &[u8])
        requires { HasRoom self.old (length name.now) }
        ensures { Writes self.old name.now self.new }
    {
        for c in name {
            self.byte(*c);
        }
    }

    // Digit by digit: std's `Display` goes through a formatter, which may fail and says less of the bytes.
    pub fn decimal(&mut self, n: u64)
        requires { HasRoom self.old (length (decimal n)) }
        ensures { Writes self.old (decimal n) self.new }
    {
        self.at = put_decimal(self.bytes, self.at, n);
    }

    // A field as it is given, and the byte behind it: a space, or the line's newline.
    pub fn field(&mut self, field: &[u8], behind: u8)
        requires { HasRoom self.old (length (field.now ++ (behind ∷ []))) }
        ensures { Writes self.old (field.now ++ (behind ∷ [])) self.new }
    {
        self.name(field);
        self.byte(behind);
    }

    // A field that is a number, and the byte behind it.
    pub fn number(&mut self, n: u64, behind: u8)
        requires { HasRoom self.old (length (decimal n ++ (behind ∷ []))) }
        ensures { Writes self.old (decimal n ++ (behind ∷ [])) self.new }
    {
        self.decimal(n);
        self.byte(behind);
    }

    // A line of a name and numbers.
    pub fn line(&mut self, name: &[u8], numbers: &[u64])
        requires { HasRoom self.old (length (line (name.now ∷ map decimal numbers.now))) }
        ensures { Writes self.old (line (name.now ∷ map decimal numbers.now)) self.new }
    {
        self.name(name);
        for n in numbers {
            self.byte(b' ');
            self.decimal(*n);
        }
        self.byte(b'\n');
    }
}

// The offset goes by value: behind a reference it would lie in memory, and each byte would wait for the store of the one before.
fn put_decimal(out: &mut [u8], at: usize, n: u64) -> usize
    requires { at + length (decimal n) ≤ length out.old }
    ensures { Wrote out.old at (decimal n) out.new result }
{
    if n < 10 {
        out[at] = digit(n);
        at + 1
    } else {
        let next = put_decimal(out, at, n / 10);
        out[next] = digit(n % 10);
        next + 1
    }
}

fn digit(n: u64) -> u8
    requires { n < 10 }
    ensures { result ≡ digit n }
{
    b'0' + n as u8
}
