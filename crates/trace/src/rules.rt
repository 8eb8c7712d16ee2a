// What a record is refused for, given the records before it: 4, 5, 6, 9, 7, 8.
ghost use Rattle.std.specs.Prelude.{◌≡◌, ◌≤◌, length, get_or, ltb, eqb};
ghost use Rattle.event.specs.Event.{names_step};
ghost use Rattle.trace.specs.Table.{item};
ghost use Rattle.trace.specs.Refusals.{may_follow, shape_fits, request_fits, unless, or_else};
ghost use Rattle.trace.specs.Inner.Kinds.{number_of_kind};
ghost use Rattle.trace.specs.Inner.Known.{shape_in, request_in, event_in, finding_number, OwnFault, RecordFault, Bodied};

use crate::Fault;
use crate::bytes::number8;
use crate::kind::RecordKind;
use crate::progress::Progress;
use crate::record::Record;
use event::Step;

#[tactic(auto, unfolding(crate::specs::Refusals::may_follow))]
fn may_follow(last: u8, section: u8) -> bool
    ensures { result ≡ may_follow last section }
{
    if last == 0 {
        return section == 1;
    }
    section > 1 && last <= section
}

#[tactic(auto, unfolding(crate::specs::Refusals::shape_fits))]
fn shape_fits(k: u8, q: u8, w: u8) -> bool
    ensures { result ≡ shape_fits (record { k = k; q = q; w = w }) }
{
    (1..=4).contains(&k) && (1..=4).contains(&q) && w <= 8
}

#[tactic(auto, unfolding(event::specs::Event::names_step))]
fn names_step(k: u8, what: u8, level: u8, position: u8) -> bool
    requires { k ≤ 4 }
    ensures { result ≡ names_step k (record { what = what; level = level; position = position }) }
{
    (position as usize) < wiring::width(k as usize)
        && Step::try_from(what).is_ok_and(|step| step.fits(k, level))
}

fn shape_fault(b: &[u8]) -> Result<(), Fault>
    requires { length b.now ≡ 3 }
    ensures { finding_number result ≡ unless (shape_fits (shape_in b.now)) 5 }
{
    if !shape_fits(b[0], b[1], b[2]) {
        return Err(Fault::Range);
    }
    Ok(())
}

// A mark stands at each address that was given.
fn word_fault(address: u8, marks: &[u8; 256]) -> Result<(), Fault>
    ensures { finding_number result ≡ unless (eqb (get_or marks.now address 0) 0) 6 }
{
    if marks[address as usize] != 0 {
        return Err(Fault::Twice);
    }
    Ok(())
}

#[tactic(auto, unfolding(crate::specs::Refusals::request_fits, crate::specs::Refusals::or_else))]
pub fn request_fault(b: &[u8], k: u8, requests: usize) -> Result<(), Fault>
    requires { (length b.now ≡ 19) × (k ≤ 4) }
    ensures { finding_number result ≡ or_else (unless (ltb requests 256) 9) (unless (request_fits k (request_in b.now)) 7) }
{
    if requests >= 256 {
        return Err(Fault::Many);
    }
    if b[0] as usize >= wiring::width(k as usize) {
        return Err(Fault::Operand);
    }
    if !operation::operands_fit(b[1], number8(b, 3), number8(b, 11)) {
        return Err(Fault::Operand);
    }
    Ok(())
}

fn event_fault(b: &[u8], k: u8) -> Result<(), Fault>
    requires { (length b.now ≡ 3) × (k ≤ 4) }
    ensures { finding_number result ≡ unless (names_step k (event_in b.now)) 8 }
{
    if !names_step(k, b[0], b[1], b[2]) {
        return Err(Fault::Step);
    }
    Ok(())
}

// What a record is refused for in its own section: 5, 6, 9, 7, 8.
fn own_fault(r: Record, p: Progress, marks: &[u8; 256]) -> Result<(), Fault>
    requires { Bodied (number_of_kind r.kind) r.body.now × (p.facts.k ≤ 4) }
    ensures { OwnFault p marks.now (item (number_of_kind r.entry.kind) r.entry.body.now) result }
{
    let b = r.body;
    match r.kind {
        RecordKind::Shape => shape_fault(b),
        RecordKind::Word => word_fault(b[0], marks),
        RecordKind::Request => request_fault(b, p.facts.k, p.facts.requests),
        RecordKind::Event => event_fault(b, p.facts.k),
        RecordKind::Drain => Ok(()),
    }
}

// The same after the order of the sections: 4, then those.
pub fn record_fault(r: Record, p: Progress, marks: &[u8; 256]) -> Result<(), Fault>
    requires { Bodied (number_of_kind r.kind) r.body.now × (p.facts.k ≤ 4) }
    ensures { RecordFault p marks.now (item (number_of_kind r.entry.kind) r.entry.body.now) result }
{
    if !may_follow(p.section, r.kind.section()) {
        return Err(Fault::Order);
    }
    own_fault(r, p, marks)
}
