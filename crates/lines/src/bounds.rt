// Where the fields of a line begin and end.
ghost use Rattle.std.specs.Prelude.{◌≡◌, [], ◌∷◌, length, take_while, MatchOption, IfSome};
ghost use Rattle.lines.specs.Said.{is_space, in_field, past_spaces, first_field, past_field, fields};

// The first field of a line and all that stands behind it, where the line has more than spaces.
pub fn split_field(line: &[u8]) -> Option<(&[u8], &[u8])>
    ensures split { MatchOption result (fields line.now ≡ []) (λ parts. fields line.now ≡ parts.0.now ∷ fields parts.1.now) }
    ensures stands { IfSome result (λ parts. (parts.0.now ≡ first_field (past_spaces line.now))
        × (parts.1.now ≡ past_field (past_spaces line.now))) }
{
    let begun = &line[leading_spaces(line)..];
    if begun.is_empty() {
        return None;
    }
    Some(begun.split_at(field_length(begun)))
}

// How many spaces a text begins with.
fn leading_spaces(text: &[u8]) -> usize
    ensures { result ≡ length (take_while is_space text.now) }
{
    text.iter().take_while(|c| is_space(**c)).count()
}

// How many bytes stand in front of the first space.
fn field_length(text: &[u8]) -> usize
    ensures { result ≡ length (take_while in_field text.now) }
{
    text.iter().take_while(|c| !is_space(**c)).count()
}

fn is_space(c: u8) -> bool
    ensures { result ≡ is_space c }
{
    matches!(c, b' ' | b'\t' | b'\r')
}
