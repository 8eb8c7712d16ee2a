// Small numbers side by side in one word: lengths of four bits, tags of a byte, marks of one bit.
#![tactic(auto)]

ghost use Rattle.std.specs.Prelude.{◌≡◌, suc, ◌-◌, ◌<◌, ◌≤◌, ◌≢◌, ◌==◌};
ghost use Rattle.lists.specs.Table.{update};
ghost use Rattle.words.specs.Inner.Digits.{length_in, byte_in, bit_in, FirstBusy, Above, Lowest, Pushed, Topped, Without, LowBits};

// ---- sixteen lengths

pub fn length_in(row: u64, p: usize) -> usize
    requires { p < 16 }
    ensures { (result ≡ length_in row p) × (result < 16) }
{
    ((row >> (p * 4)) % 16) as usize
}

pub fn with_length(row: u64, p: usize, n: usize) -> u64
    requires { (p < 16) × (n < 16) }
    ensures { length_in result ≡ update (length_in row) p n }
{
    let s = p * 4;
    row - (((row >> s) % 16) << s) + ((n as u64) << s)
}

pub fn one_more(row: u64, p: usize) -> u64
    requires { (p < 16) × (length_in row p < 15) }
    ensures { length_in result ≡ update (length_in row) p (suc (length_in row p)) }
{
    row + (1u64 << (p * 4))
}

pub fn one_less(row: u64, p: usize) -> u64
    requires { (p < 16) × (0 < length_in row p) }
    ensures { length_in result ≡ update (length_in row) p (length_in row p - 1) }
{
    row - (1u64 << (p * 4))
}

// The lowest place whose length is not 0, of a row that has one: a length below it would have a bit that is not 0.
pub fn first_busy(row: u64) -> usize
    requires { row ≢ 0 }
    ensures { FirstBusy row result }
{
    (u64::trailing_zeros(row) / 4) as usize
}

// The lengths above a place alone.
pub fn lengths_above(row: u64, p: usize) -> u64
    requires { p < 16 }
    ensures { Above row p result }
{
    let s = p * 4;
    (((row >> s) >> 4) << 4) << s
}

// ---- eight bytes

pub fn byte_at(w: u64, i: usize) -> u8
    requires { i < 8 }
    ensures { result ≡ byte_in w i }
{
    ((w >> (i * 8)) % 256) as u8
}

// The bytes below a place, and a byte there: what stood above it goes.
pub fn with_highest(w: u64, i: usize, b: u8) -> u64
    requires { i < 8 }
    ensures { Topped w i b result }
{
    let s = i * 8;
    w % (1u64 << s) + ((b as u64) << s)
}

// One byte more, below all others.
pub fn with_lowest(w: u64, b: u8) -> u64
    ensures { Pushed w b result }
{
    (w << 8) + b as u64
}

// The byte at a place goes, and those above it move down.
pub fn without_byte(w: u64, i: usize) -> u64
    requires { i < 8 }
    ensures { Without w i result }
{
    let s = i * 8;
    (((w >> s) >> 8) << s) + w % (1u64 << s)
}

const ONES: u64 = 0x0101010101010101;

const HIGHS: u64 = 0x8080808080808080;

// The lowest place of a byte. x has zero bytes where w has the byte; of `zeros` the lowest bit that is not 0 is the high bit of the lowest
// of them.
pub fn place_of(w: u64, b: u8) -> Option<usize>
    ensures { Lowest 8 w b result }
{
    let x = w ^ (b as u64 * ONES);
    let zeros = x.wrapping_sub(ONES) & !x & HIGHS;
    if zeros == 0 {
        return None;
    }
    Some(zeros.trailing_zeros() as usize / 8)
}

// ---- 64 marks

pub fn is_marked(w: u64, i: usize) -> bool
    requires { i < 64 }
    ensures { result ≡ (bit_in w i == 1) }
{
    (w >> i) % 2 == 1
}

// A mark at a place that has none.
pub fn with_mark(w: u64, i: usize) -> u64
    requires { (i < 64) × (bit_in w i ≡ 0) }
    ensures { bit_in result ≡ update (bit_in w) i 1 }
{
    w + (1u64 << i)
}

// Marks at the lowest n places.
pub fn low_marks(n: usize) -> u64
    requires { n ≤ 64 }
    ensures { LowBits n result }
{
    if n == 64 {
        return 18446744073709551615;
    }
    (1u64 << n) - 1
}
