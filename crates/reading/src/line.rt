// Where a line of a text ends, and the lines one by one.
ghost use Rattle.std.specs.Prelude.{◌≡◌, ◌+◌, ◌<◌, ◌^◌, length, take_while, MatchOption};
ghost use Rattle.std.specs.Iterator.{at_most};
ghost use Rattle.reading.specs.Text.{in_line};
ghost use Rattle.reading.specs.Inner.Walk.{LineSplit, LineNext};

// The lines that are left of a text, behind so many others: each comes with its number, counted from 1.
#[derive(Drop)]
pub struct Lines<'a> {
    rest: &'a [u8],
    passed: usize,
    ghost few: { passed + length rest.now < 2 ^ 64 },
}

impl<'a> Lines<'a> {
    pub fn of(text: &'a [u8]) -> Lines<'a>
        ensures rest { result.rest.now ≡ text.now }
        ensures passed { result.passed ≡ 0 }
    {
        Lines {
            rest: text,
            passed: 0,
        }
    }
}

impl<'a> Iterator for Lines<'a> {
    type Item = (usize, &'a [u8]);

    ghost next_gives = { λ old result new. MatchOption result (length old.rest.now ≡ 0)
        (λ found. LineNext old.passed old.rest.now found.0 found.1.now new.passed new.rest.now) };

    ghost remaining = { λ lines. at_most (length lines.rest.now) };

    fn next(&mut self) -> Option<(usize, &'a [u8])> {
        let (line, behind) = split_line(self.rest)?;
        self.rest = behind;
        self.passed += 1;
        Some((self.passed, line))
    }
}

// The first line of a text, and what stands behind its newline: the last line may lack it. A text without a byte has no line.
pub fn split_line(text: &[u8]) -> Option<(&[u8], &[u8])>
    ensures { MatchOption result (length text.now ≡ 0) (λ parts. LineSplit text.now parts.0.now parts.1.now) }
{
    if text.is_empty() {
        return None;
    }
    let end = line_length(text);
    let next = (end + 1).min(text.len());
    Some((&text[..end], &text[next..]))
}

// How many bytes stand in front of the first newline.
fn line_length(text: &[u8]) -> usize
    ensures { result ≡ length (take_while in_line text.now) }
{
    text.iter().take_while(|c| **c != b'\n').count()
}
