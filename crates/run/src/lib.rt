// The run of an accepted trace: its requests are in the machine, its events and drains are read from the trace one by one.
#![tactic(auto)]

ghost use Rattle.run.specs.Inner.Run.{items_in, Loading, ActsReady, ActsRun, RanTo};

use event::Step;
use store::Machine;
use trace::acts::Act;
use trace::{Facts, acts};

// From the start to the end of the trace.
pub fn from_start(trace: &[u8], facts: Facts, m: &mut Machine, words: &mut [u64; 256])
    requires { Loading trace.now facts m.old words.old }
    ensures { RanTo (items_in trace.now) m.new words.new }
{
    let at = facts.acts_at;
    start::start(
        m,
        facts.k as u64,
        facts.q as u64,
        facts.w as u64,
        facts.requests,
    );
    acts_from(trace, at, m, words);
}

// The events and drains from an offset on, one by one.
fn acts_from(trace: &[u8], from: usize, m: &mut Machine, words: &mut [u64; 256])
    requires { ActsReady trace.now from m.old words.old }
    ensures { ActsRun trace.now from m.old words.old m.new words.new }
{
    let mut at = from;
    while let Some(act) = acts::act_at(trace, at) {
        match act {
            Act::Event {
                what,
                level,
                position,
            } => {
                // an accepted trace names steps that there are
                let Ok(step) = Step::try_from(what) else {
                    unreachable!()
                };
                network::step(m, words, step, level as usize, position as usize);
                at += acts::EVENT_SIZE;
            }
            Act::Drain(allowed) => {
                rounds::drain(m, words, allowed);
                // what follows could move nothing
                if rounds::all_answered(m) {
                    return;
                }
                at += acts::DRAIN_SIZE;
            }
        }
    }
}
