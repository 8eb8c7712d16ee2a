// What belongs to a tag: its request's address, path and next request, and what its message, wait record or reply carries.
ghost use Rattle.std.specs.Prelude.{◌≡◌, ◌+◌, ◌*◌, ◌/◌, ◌%◌, ◌^◌, ◌≤◌, ◌<◌};
ghost use Rattle.operation.specs.Operation.{words_of};
ghost use Rattle.wiring.specs.Inner.Path.{position_on};
ghost use Rattle.view.specs.Inner.View.{operation_in, valued, with_fixed, with_carried, with_request, linked};
ghost use Rattle.store.specs.Inner.Memory.{view, Becomes};

use super::{FIRST_OPERANDS, HEADS, Machine, SECOND_OPERANDS};
use operation::{Operation, Words};

// A head: the operation's code, the address, the engine's next request in twenty bits, and the path.
const ADDRESS: u64 = 256;

const AFTER: u64 = 65536;

const PATH: u64 = 68719476736;

pub fn put_request(m: &mut Machine, t: usize, address: u8, path: u64, asked: Words)
    requires { (t < 256) × (path < 2 ^ 20) × (asked.code < 256) }
    ensures { Becomes m.new (with_request (view m.old) t address path asked) }
{
    m[HEADS + t] = asked.code + ADDRESS * (address as u64) + PATH * path;
    m[FIRST_OPERANDS + t] = asked.first;
    m[SECOND_OPERANDS + t] = asked.second;
}

// The engine's next request after t, or the number of requests.
pub fn set_after(m: &mut Machine, t: usize, n: usize)
    requires { (t < 256) × (n ≤ 256) }
    ensures { Becomes m.new (with_fixed (view m.old) (linked (view m.old).fixed t n)) }
{
    let at = HEADS + t;
    m[at] = with_after(m[at], n as u64);
}

// A head with another next request.
fn with_after(head: u64, n: u64) -> u64
    requires { n ≤ 256 }
    ensures { result ≡ head / 2 ^ 36 * 2 ^ 36 + 2 ^ 16 * n + head % 2 ^ 16 }
{
    head / PATH * PATH + AFTER * n + head % AFTER
}

#[tactic(auto, using(crate::proofs::Tagged::tag_reads))]
pub fn after_of(m: &Machine, t: u8) -> usize
    ensures { result ≡ (view m.now).fixed.after t }
{
    (m[HEADS + t as usize] / AFTER % 1048576) as usize
}

#[tactic(auto, using(crate::proofs::Tagged::tag_reads))]
pub fn address_of(m: &Machine, t: u8) -> u8
    ensures { result ≡ (view m.now).fixed.address t }
{
    (m[HEADS + t as usize] / ADDRESS % 256) as u8
}

// The position, at a level, of the path of the request t.
#[tactic(auto, using(crate::proofs::Tagged::tag_reads))]
pub fn position_of(m: &Machine, t: u8, level: usize) -> usize
    requires { level < 5 }
    ensures { (result ≡ position_on ((view m.now).fixed.path t) level) × (result < 16) }
{
    let path = m[HEADS + t as usize] / PATH;
    wiring::position_on(path, level)
}

// The operation that the message or the wait record of t carries.
#[tactic(auto, using(crate::proofs::Tagged::tag_reads))]
pub fn operation_at(m: &Machine, t: u8) -> Operation
    ensures { result ≡ operation_in ((view m.now).carried t) }
{
    let i = t as usize;
    Operation::from(Words {
        code: m[HEADS + i] % 256,
        first: m[FIRST_OPERANDS + i],
        second: m[SECOND_OPERANDS + i],
    })
}

#[tactic(auto, using(crate::proofs::Tagged::code_below))]
pub fn set_operation(m: &mut Machine, t: u8, f: Operation)
    ensures { Becomes m.new (with_carried (view m.old) t (words_of f)) }
{
    let i = t as usize;
    let words = Words::from(f);
    m[HEADS + i] = with_code(m[HEADS + i], words.code);
    m[FIRST_OPERANDS + i] = words.first;
    m[SECOND_OPERANDS + i] = words.second;
}

// A head with another code.
fn with_code(head: u64, code: u64) -> u64
    requires { code < 256 }
    ensures { result ≡ head / 256 * 256 + code }
{
    head / 256 * 256 + code
}

// The value that the reply or the answer t carries: it stands where the first operand stood.
#[tactic(auto, using(crate::proofs::Tagged::tag_reads))]
pub fn value_at(m: &Machine, t: u8) -> u64
    ensures { result ≡ ((view m.now).carried t).first }
{
    m[FIRST_OPERANDS + t as usize]
}

pub fn set_value(m: &mut Machine, t: u8, value: u64)
    ensures { Becomes m.new (with_carried (view m.old) t (valued ((view m.old).carried t) value)) }
{
    m[FIRST_OPERANDS + t as usize] = value;
}
