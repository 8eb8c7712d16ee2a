// How the numbers of an item are stored in a row: each in the next cell of its width.
ghost use Rattle.std.specs.Prelude.{◌≡◌, ◌+◌, ◌*◌, ◌≤◌, ◌<◌, length, get_or, set};
ghost use Rattle.trace.specs.Inner.Kinds.{number_of_kind};
ghost use Rattle.writing.specs.Rows.{row_count};
ghost use Rattle.reading.specs.Inner.Row.{lent, three_set, two_set, MayKeep, MayPut, SameLent, RowPut};
ghost use Rattle.reading.specs.Inner.Walk.{Kept};

use lines::Values;
use trace::kind::RecordKind;

// A row has so many numbers of two bytes, of one byte and of eight bytes.
pub const HEADS: usize = 2;

pub const BYTES: usize = 10;

pub const WORDS: usize = 8;

// The first three numbers, of one byte each.
fn put_three(values: &Values, at: usize, bytes: &mut [u8])
    requires bytes_room { at + 3 ≤ length bytes.old }
    requires values_bound { (get_or values.now 0 0 < 256) × (get_or values.now 1 0 < 256) × (get_or values.now 2 0 < 256) }
    ensures { bytes.new ≡ three_set bytes.old at values.now }
{
    bytes[at] = values[0] as u8;
    bytes[at + 1] = values[1] as u8;
    bytes[at + 2] = values[2] as u8;
}

// The operands of a request.
fn put_operands(values: &Values, at: usize, words: &mut [u64])
    requires { at + 2 ≤ length words.old }
    ensures { words.new ≡ two_set words.old at values.now }
{
    words[at] = values[3];
    words[at + 1] = values[4];
}

// The address and the value of a word.
fn put_word(values: &Values, i: usize, bytes: &mut [u8], words: &mut [u64])
    requires { (10 * i < length bytes.old) × (8 * i < length words.old) × (get_or values.now 0 0 < 256) }
    ensures bytes_after { bytes.new ≡ set bytes.old (10 * i) (get_or values.now 0 0) }
    ensures words_after { words.new ≡ set words.old (8 * i) (get_or values.now 1 0) }
{
    bytes[BYTES * i] = values[0] as u8;
    words[WORDS * i] = values[1];
}

// Lent rows, and how many of them are filled.
#[derive(Drop)]
pub struct LentRows<'a> {
    pub heads: &'a mut [u16],
    pub bytes: &'a mut [u8],
    pub words: &'a mut [u64],
    pub filled: usize,
}

impl<'a> LentRows<'a> {
    // An item of a kind, whose fields have these numbers, stored in row i.
    #[tactic(auto, unfolding(writing::specs::Rows::row_count))]
    pub fn put_row(&mut self, i: usize, kind: RecordKind, values: &Values)
        requires { MayPut kind values.now i (lent self.old) }
        ensures lent { SameLent self.old self.new }
        ensures filled { self.new.filled ≡ self.old.filled }
        ensures row { RowPut (number_of_kind kind) values.now i (lent self.old) (lent self.new) }
    {
        self.heads[HEADS * i] = kind.into();
        match kind {
            RecordKind::Shape | RecordKind::Event => put_three(values, BYTES * i, self.bytes),
            RecordKind::Word => put_word(values, i, self.bytes, self.words),
            RecordKind::Request => {
                put_three(values, BYTES * i, self.bytes);
                put_operands(values, WORDS * i, self.words);
            }
            RecordKind::Drain => self.heads[HEADS * i + 1] = values[0] as u16,
        }
    }

    // As many rows as all slices have.
    #[tactic(auto, unfolding(writing::specs::Rows::row_count))]
    fn count(&self) -> usize
        ensures { result ≡ row_count (lent self.now) }
    {
        (self.heads.len() / HEADS).min((self.bytes.len() / BYTES).min(self.words.len() / WORDS))
    }

    // An item goes into the next row, where there is one.
    pub fn keep(&mut self, kind: RecordKind, values: &Values)
        requires { MayKeep kind values.now }
        ensures lent { SameLent self.old self.new }
        ensures kept { Kept (number_of_kind kind) values.now self.old.filled (lent self.old) self.new.filled (lent self.new) }
    {
        if self.filled < self.count() {
            self.put_row(self.filled, kind, values);
            self.filled += 1;
        }
    }
}
