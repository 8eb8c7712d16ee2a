// How a record that is not refused adds to what is known, to the memory and to the machine.
ghost use Rattle.std.specs.Prelude.{◌≡◌, ◌≤◌, ◌<◌, ◌^◌, length, get_or, set};
ghost use Rattle.trace.specs.Table.{item};
ghost use Rattle.trace.specs.Inner.Known.{request_in};
ghost use Rattle.trace.specs.Inner.Kinds.{number_of_kind};
ghost use Rattle.load.specs.Inner.Places.{Lent};
ghost use Rattle.load.specs.Inner.Loop.{MayPut, Put, MayNote, Keeps, RequestPut};

use operation::Words;
use store::Machine;
use trace::bytes::number8;
use trace::kind::RecordKind;
use trace::progress;
use trace::progress::Progress;
use trace::record::Record;

// Where what a trace says goes: which addresses its words have, its starting words, and its requests.
#[derive(Drop)]
pub struct Places<'a> {
    pub marks: &'a mut [u8; 256],
    pub words: &'a mut [u64; 256],
    pub m: &'a mut Machine,
}

fn put_word(address: u8, value: u64, words: &mut [u64; 256])
    ensures { words.new ≡ set words.old address value }
{
    words[address as usize] = value;
}

pub fn put_request(b: &[u8], k: u8, t: usize, m: &mut Machine)
    requires { (length b.now ≡ 19) × (k ≤ 4) × (get_or b.now 0 0 < 2 ^ k) × (t < 256) }
    ensures { RequestPut k (request_in b.now) t m.old m.new }
{
    let address = b[2];
    let path = wiring::path_of(k as usize, b[0] as u64, address as u64);
    let asked = Words {
        code: b[1] as u64,
        first: number8(b, 3),
        second: number8(b, 11),
    };
    store::tags::put_request(m, t, address, path, asked);
}

// What a record that is not refused leaves in the memory and in the machine: a word's value, or a request.
fn put(r: Record, p: Progress, words: &mut [u64; 256], m: &mut Machine)
    requires { MayPut (number_of_kind r.kind) r.body.now p words.old m.old }
    ensures { Put (item (number_of_kind r.entry.kind) r.entry.body.now) p words.old m.old words.new m.new }
{
    let b = r.body;
    match r.kind {
        RecordKind::Word => put_word(b[0], number8(b, 1), words),
        RecordKind::Request => put_request(b, p.facts.k, p.facts.requests, m),
        _ => {}
    }
}

// Past a record that is not refused.
pub fn noted(r: Record, p: Progress, into: &mut Places) -> Progress
    requires { MayNote (number_of_kind r.kind) r.body.now p into.old.marks.now into.old.words.now into.old.m.now }
    ensures lent { Lent into.old into.new }
    ensures keeps { Keeps (item (number_of_kind r.entry.kind) r.entry.body.now) p into.old.marks.now into.old.words.now into.old.m.now result
        into.new.marks.now into.new.words.now into.new.m.now }
{
    put(r, p, into.words, into.m);
    progress::noted(r, p, into.marks)
}
