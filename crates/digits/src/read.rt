// What a text spells in decimal.
ghost use Rattle.std.specs.Prelude.{◌≡◌, true};
ghost use Rattle.std.specs.Char.{is_ascii_digit};
ghost use Rattle.std.specs.List.{list_all};
ghost use Rattle.digits.specs.Numeral.{is_decimal};
ghost use Rattle.digits.specs.Inner.Value.{spelled};

// Why a text spells no number of 64 bits: it is no number in decimal, or one that does not fit.
#[derive(Clone, Copy, Debug, PartialEq, Eq)]
pub enum NumberError {
    NoNumber,
    TooLarge,
}

pub fn number_in(text: &[u8]) -> Result<u64, NumberError>
    ensures { result ≡ spelled text.now }
{
    if is_decimal(text) {
        value_of(text)
    } else {
        Err(NumberError::NoNumber)
    }
}

// Digits alone, at least one, and no leading zero.
fn is_decimal(text: &[u8]) -> bool
    ensures { result ≡ is_decimal text.now }
{
    if text.is_empty() {
        return false;
    }
    if text[0] == b'0' {
        return text.len() == 1;
    }
    all_digits(text)
}

fn all_digits(text: &[u8]) -> bool
    ensures { result ≡ list_all is_ascii_digit text.now }
{
    text.iter().all(|c| c.is_ascii_digit())
}

// The number that digits spell, told too large where one more digit passes 64 bits.
fn value_of(text: &[u8]) -> Result<u64, NumberError>
    requires { is_decimal text.now ≡ true }
    ensures { result ≡ spelled text.now }
{
    let mut n: u64 = 0;
    for c in text {
        let d = (c - b'0') as u64;
        n = n
            .checked_mul(10)
            .and_then(|tens| tens.checked_add(d))
            .ok_or(NumberError::TooLarge)?;
    }
    Ok(n)
}
