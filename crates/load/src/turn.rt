// One turn of the check: a record, or a run of requests or of acts.
ghost use Rattle.std.specs.Prelude.{◌≡◌, ◌+◌, ◌≤◌, length};
ghost use Rattle.load.specs.Inner.Places.{Lent};
ghost use Rattle.load.specs.Inner.Loop.{Inside, TurnRight, RequestsPassed, RequestsOnward, Onward};

use crate::put::{Places, noted, put_request};
use store::Machine;
use trace::Fault;
use trace::bytes::number4;
use trace::passed::acts_end;
use trace::progress::Progress;
use trace::reader::Reader;
use trace::record::body;
use trace::rules::{record_fault, request_fault};

// One record: past it, its fault, or none at the end.
pub fn one_turn(s: &[u8], p: Progress, into: &mut Places) -> Result<Option<Progress>, Fault>
    requires { Inside s.now p into.old.marks.now into.old.words.now into.old.m.now }
    ensures lent { Lent into.old into.new }
    ensures right { TurnRight s.now p into.new.marks.now into.new.words.now into.new.m.now result }
{
    let Some(record) = Reader::new(s, p.at).head()? else {
        return Ok(None);
    };
    record_fault(record, p, into.marks)?;
    Ok(Some(noted(record, p, into)))
}

// A request's header, length and kind, as the one number that its four bytes spell.
const REQUEST_HEADER: u64 = 19 + 65536 * 3;

const REQUEST_SIZE: usize = 23;

// How many requests that are not refused stand one behind another where the check has come to; they go into the machine.
fn requests_from(s: &[u8], p: Progress, m: &mut Machine) -> usize
    requires { (p.at ≤ length s.now) × (length s.now ≤ 65536) × (p.facts.k ≤ 4) × (p.facts.requests ≤ 256) }
    ensures { RequestsPassed s.now p result m.old m.new }
{
    // no range: the first record that is no request, or is refused, ends it
    let mut n = 0;
    loop {
        let at = p.at + REQUEST_SIZE * n;
        if s.len() - at < REQUEST_SIZE {
            return n;
        }
        if number4(s, at) != REQUEST_HEADER {
            return n;
        }
        let b = body(s, at, 19);
        let t = p.facts.requests + n;
        if request_fault(b, p.facts.k, t).is_err() {
            return n;
        }
        put_request(b, p.facts.k, t, m);
        n += 1;
    }
}

// Past the requests that are not refused, behind the first: like the acts, they take the short way.
pub fn past_requests(s: &[u8], mut p: Progress, m: &mut Machine) -> Progress
    requires at_in_bounds { (p.at ≤ length s.now) × (length s.now ≤ 65536) × (p.facts.k ≤ 4) × (p.facts.requests ≤ 256) }
    requires acts_at_bound { p.facts.acts_at ≤ p.at }
    ensures { RequestsOnward s.now p m.old result m.new }
{
    if p.section == 3 {
        let n = requests_from(s, p, m);
        p.at += REQUEST_SIZE * n;
        p.facts.requests += n;
        p.facts.acts_at += REQUEST_SIZE * n;
    }
    p
}

// Past the acts that are not refused: most of a long trace, so they take the short way.
pub fn past_acts(s: &[u8], mut p: Progress) -> Progress
    requires { (p.at ≤ length s.now) × (length s.now ≤ 65536) × (p.facts.k ≤ 4) }
    ensures { Onward s.now p result }
{
    if p.section == 4 {
        p.at = acts_end(s, p.at, p.facts.k);
    }
    p
}
