// The items that a text of lines says, as rows for the writer: request No. 1 of document 02.
#![tactic(auto)]

ghost use Rattle.std.specs.Prelude.{◌≡◌, slice_get};
ghost use Rattle.writing.specs.Rows.{rows};
ghost use Rattle.reading.specs.Text.{item_lines};
ghost use Rattle.reading.specs.Inner.Row.{lent, SameLent};
ghost use Rattle.reading.specs.Inner.Walk.{ReadRows};

use line::Lines;
use lines::{MOST_FIELDS, Wrong, line_says};
use row::LentRows;

pub mod line;
pub mod row;

// The first line that is no item: its number, counted from 1, and what is wrong with it.
#[derive(Clone, Copy, Debug, PartialEq, Eq)]
pub struct WrongLine {
    pub number: usize,
    pub wrong: Wrong,
}

// The items of a text in rows, as far as there are rows: how many are filled. Items beyond are read and not kept. A row stands in three
// slices, as the public `write` takes it for C.
pub fn read(
    text: &[u8],
    heads: &mut [u16],
    bytes: &mut [u8],
    words: &mut [u64],
) -> Result<usize, WrongLine>
    ensures { ReadRows text.now (rows heads.old bytes.old words.old) result
        (rows heads.new bytes.new words.new) }
{
    let mut rows = LentRows {
        heads,
        bytes,
        words,
        filled: 0,
    };
    fill(&mut rows, text)
}

// The items of a text, kept in lent rows of which none is filled.
fn fill(rows: &mut LentRows, text: &[u8]) -> Result<usize, WrongLine>
    requires { rows.old.filled ≡ 0 }
    ensures lent { SameLent rows.old rows.new }
    ensures read { ReadRows text.now (lent rows.old) result (lent rows.new) }
{
    let mut values = [0; MOST_FIELDS];
    for (number, line) in Lines::of(text) {
        let said = line_says(line, &mut values).map_err(|wrong| WrongLine { number, wrong })?;
        if let Some(kind) = said {
            rows.keep(kind, &values);
        }
    }
    Ok(rows.filled)
}

// The number of the line that says the item of a row, counted from 1.
pub fn line_of(text: &[u8], row: usize) -> Option<usize>
    ensures { result ≡ slice_get (item_lines text.now) row }
{
    let mut values = [0; MOST_FIELDS];
    let mut left = row;
    for (number, line) in Lines::of(text) {
        if let Ok(Some(_)) = line_says(line, &mut values) {
            if left == 0 {
                return Some(number);
            }
            left -= 1;
        }
    }
    None
}
