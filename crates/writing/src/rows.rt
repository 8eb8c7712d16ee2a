// The rows of a list as they are lent, and how a row's numbers are read.
ghost use Rattle.std.specs.Prelude.{◌≡◌, ◌+◌, ◌*◌, ◌≤◌, ◌<◌, length, get_or, take, drop};
ghost use Rattle.writing.specs.Rows.{rows, row_count};
ghost use Rattle.writing.specs.Inner.Records.{Typed};

// A row has two numbers of two bytes, ten of one byte and eight of eight bytes.
#[derive(Clone, Copy)]
pub struct Rows<'a> {
    heads: &'a [u16],
    bytes: &'a [u8],
    words: &'a [u64],
    ghost typed: { Typed (rows heads.now bytes.now words.now) },
}

impl<'a> Rows<'a> {
    pub fn new(heads: &'a [u16], bytes: &'a [u8], words: &'a [u64]) -> Rows<'a>
        ensures { rows result.heads.now result.bytes.now result.words.now ≡ rows heads.entry.now bytes.entry.now words.entry.now }
    {
        Rows {
            heads,
            bytes,
            words,
        }
    }

    // As many rows as all slices have.
    #[tactic(auto, unfolding(crate::specs::Rows::row_count))]
    pub fn count(self) -> usize
        ensures { result ≡ row_count (rows self.entry.heads.now self.entry.bytes.now self.entry.words.now) }
    {
        (self.heads.len() / 2).min((self.bytes.len() / 10).min(self.words.len() / 8))
    }

    // The kind of row i's record.
    pub fn kind(self, i: usize) -> u16
        requires { 2 * i < length self.heads.now }
        ensures { result ≡ get_or self.entry.heads.now (2 * i) 0 }
    {
        self.heads[2 * i]
    }

    // The number of two bytes behind row i's kind.
    pub fn two(self, i: usize) -> u16
        requires { 2 * i + 1 < length self.heads.now }
        ensures { result ≡ get_or self.entry.heads.now (2 * i + 1) 0 }
    {
        self.heads[2 * i + 1]
    }

    // The first numbers of one byte of row i.
    pub fn ones(self, i: usize, count: usize) -> &'a [u8]
        requires { 10 * i + count ≤ length self.bytes.now }
        ensures { result.now ≡ take count (drop (10 * i) self.entry.bytes.now) }
    {
        let start = 10 * i;
        &self.bytes[start..start + count]
    }

    // The number of eight bytes at place j of row i.
    pub fn eight(self, i: usize, j: usize) -> u64
        requires { 8 * i + j < length self.words.now }
        ensures { result ≡ get_or self.entry.words.now (8 * i + j) 0 }
    {
        self.words[8 * i + j]
    }
}
