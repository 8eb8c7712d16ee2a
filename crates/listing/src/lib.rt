// The items of a trace as lines, in a lent buffer: request No. 1 of document 02.
#![tactic(auto)]

ghost use Rattle.digits.specs.Inner.Buffer.{HasRoom, WritesWithin};
ghost use Rattle.listing.specs.Listing.{listing as text, listing_room, Listed};
ghost use Rattle.listing.specs.Inner.Walk.{IsAccepted};

use digits::LentBuffer;
use item::put_item;
use trace::reader::Reader;
use trace::record::HEADER_SIZE;

mod field;
mod item;

// Room for every listing, in bytes.
pub const ROOM: usize = 262144;

// The items of a trace as lines, at the start of a buffer that has room for every listing, and the length of the lines: none where there is
// less room.
pub fn listing(trace: &[u8], out: &mut [u8]) -> Option<usize>
    ensures { Listed trace.now out.old result out.new }
{
    if out.len() < ROOM {
        return None;
    }
    let mut printed = LentBuffer::new(out);
    put_listing(trace, &mut printed);
    Some(printed.at)
}

// `report` begins likewise; one function for both would take the rest as a closure, with a clause on its call for every buffer.
fn put_listing(trace: &[u8], out: &mut LentBuffer)
    requires { HasRoom out.old listing_room }
    ensures { WritesWithin listing_room out.old (text trace.now) out.new }
{
    let mut given = [0u8; 256];
    let mut memory = [0u64; 256];
    let mut m = [0u64; store::SIZE];
    match load::load(trace, &mut given, &mut memory, &mut m) {
        Err(refusal) => text::put_refused(out, refusal.fault.into(), refusal.offset as u64),
        Ok(_) => put_items(trace, out),
    }
}

// The lines of an accepted trace's records, one by one.
fn put_items(trace: &[u8], out: &mut LentBuffer)
    requires accepted { IsAccepted trace.now }
    requires room { HasRoom out.old listing_room }
    ensures { WritesWithin listing_room out.old (text trace.now) out.new }
{
    let mut at = 0;
    while let Ok(Some(record)) = Reader::new(trace, at).head() {
        put_item(record, out);
        at = at + HEADER_SIZE + record.body.len();
    }
}
