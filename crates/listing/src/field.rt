// The fields that may be a name: an operation, and what an event is.
ghost use Rattle.std.specs.Prelude.{[], ◌∷◌, ◌++◌, length, map};
ghost use Rattle.digits.specs.Inner.Buffer.{HasRoom, Writes};
ghost use Rattle.listing.specs.Inner.Fields.{shown_of, what_shown};

use digits::LentBuffer;
use event::Step;

// A number by its name in a table, or in decimal where it has none, and the space behind it.
pub fn put_named(out: &mut LentBuffer, names: &[&[u8]], v: u8)
    requires { HasRoom out.old (length (shown_of (map (λ n. n.now) names.now) v ++ (32 ∷ []))) }
    ensures { Writes out.old (shown_of (map (λ n. n.now) names.now) v ++ (32 ∷ [])) out.new }
{
    match names.get(v as usize) {
        Some(name) => out.field(name, b' '),
        None => out.number(v as u64, b' '),
    }
}

// What an event is, likewise. Most lines of a long trace are events, so its names stand in the code: each is a store or two.
pub fn put_what(out: &mut LentBuffer, v: u8)
    requires { HasRoom out.old (length (what_shown v ++ (32 ∷ []))) }
    ensures { Writes out.old (what_shown v ++ (32 ∷ [])) out.new }
{
    match Step::try_from(v) {
        Ok(Step::Issue) => out.field(b"issue", b' '),
        Ok(Step::Forward) => out.field(b"forward", b' '),
        Ok(Step::Module) => out.field(b"module", b' '),
        Ok(Step::Return) => out.field(b"return", b' '),
        Ok(Step::Collect) => out.field(b"collect", b' '),
        Err(_) => out.number(v as u64, b' '),
    }
}
