// The report of a trace, as bytes in a lent buffer: document 01, "A session given whole".
#![tactic(auto)]

ghost use Rattle.std.specs.Prelude.{◌*◌, ◌≤◌};
ghost use Rattle.digits.specs.Inner.Buffer.{HasRoom, WritesWithin};
ghost use Rattle.text.specs.Text.{line_room};
ghost use Rattle.store.specs.Inner.Memory.{view};
ghost use Rattle.report.specs.Report.{report as text};
ghost use Rattle.report.specs.Inner.Names.{Marked};
ghost use Rattle.report.specs.Inner.Lines.{Printable, replies_in, orders_in, text_in};
ghost use Rattle.report.specs.Written.{report_room, Reported};

use digits::LentBuffer;
use store::{Machine, shape, tags};

// Room for every report, in bytes.
pub const ROOM: usize = 49344;

// The report of a trace, at the start of a buffer that has room for every report, and its length: none where there is less room.
pub fn report(trace: &[u8], out: &mut [u8]) -> Option<usize>
    ensures { Reported trace.now out.old result out.new }
{
    if out.len() < ROOM {
        return None;
    }
    let mut printed = LentBuffer::new(out);
    put_report(trace, &mut printed);
    Some(printed.at)
}

fn put_report(trace: &[u8], out: &mut LentBuffer)
    requires { HasRoom out.old report_room }
    ensures { WritesWithin report_room out.old (text trace.now) out.new }
{
    let mut given = [0u8; 256];
    let mut memory = [0u64; 256];
    let mut m = [0u64; store::SIZE];
    match load::load(trace, &mut given, &mut memory, &mut m) {
        Err(refusal) => text::put_refused(out, refusal.fault.into(), refusal.offset as u64),
        Ok(facts) => {
            let n = facts.requests;
            name_requests(&m, n, &mut given);
            run::from_start(trace, facts, &mut m, &mut memory);
            put_results(&m, &memory, &given, out);
        }
    }
}

// Each address that a request has is marked beside those that were given.
fn name_requests(m: &Machine, n: usize, named: &mut [u8; 256])
    requires { n ≤ 256 }
    ensures { Marked (view m.now).fixed.address n named.old named.new }
{
    for tag in 0..n {
        let address = tags::address_of(m, tag as u8);
        named[address as usize] = 1;
    }
}

// The text of a run, section by section.
fn put_results(m: &Machine, memory: &[u64; 256], named: &[u8; 256], out: &mut LentBuffer)
    requires printable { Printable (view m.now) }
    requires room { HasRoom out.old report_room }
    ensures { WritesWithin report_room out.old (text_in (view m.now) memory.now named.now) out.new }
{
    put_replies(m, out);
    put_orders(m, out);
    text::put_words(out, memory, named);
    let accesses = shape::accesses(m);
    let merges = shape::merges(m);
    let rounds = shape::rounds(m);
    text::put_counts(out, accesses, merges, rounds);
}

fn put_replies(m: &Machine, out: &mut LentBuffer)
    requires printable { Printable (view m.now) }
    requires room { HasRoom out.old (line_room * 256) }
    ensures { WritesWithin (line_room * 256) out.old (replies_in (view m.now)) out.new }
{
    let n = shape::requests_in(m);
    let mut replies = [0u64; 256];
    let mut marks = [0u8; 256];
    results::copy_values(m, n, &mut replies);
    results::copy_marks(m, n, &mut marks);
    text::put_replies(out, &replies[..n], &marks[..n]);
}

fn put_orders(m: &Machine, out: &mut LentBuffer)
    requires printable { Printable (view m.now) }
    requires room { HasRoom out.old (line_room * 256) }
    ensures { WritesWithin (line_room * 256) out.old (orders_in (view m.now)) out.new }
{
    let n = shape::ordered(m);
    let mut order = [0u64; 256];
    results::copy_order(m, &mut order);
    text::put_orders(out, &order[..n]);
}
