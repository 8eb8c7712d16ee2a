// A whole trace checked, and its words and requests loaded: document 01, "What a trace is told".
#![tactic(auto)]

ghost use Rattle.std.specs.Prelude.{◌≡◌, replicate};
ghost use Rattle.store.specs.Inner.Layout.{size as machine_size};
ghost use Rattle.load.specs.Inner.Loaded.{Loaded};
ghost use Rattle.load.specs.Inner.Loop.{reading};

use put::Places;
use store::Machine;
use trace::progress::Progress;
use trace::{Facts, Fault, Refusal};

mod put;
mod turn;

// What a trace is told; which addresses its words have, its starting words and its requests go into the marks, the memory and
// the machine, which are zeros before. A mark is a number, 1 where the address is given: `word_line` of the report tells of it so.
pub fn load(
    s: &[u8],
    given: &mut [u8; 256],
    words: &mut [u64; 256],
    m: &mut Machine,
) -> Result<Facts, Refusal>
    requires { (given.old ≡ replicate 256 0) × (words.old ≡ replicate 256 0) × (m.old ≡ replicate machine_size 0) }
    ensures { Loaded s.now result given.new words.new m.new }
{
    if s.len() > trace::LONGEST {
        return Err(Refusal {
            fault: Fault::Long,
            offset: 0,
        });
    }
    let mut p = Progress::start();
    let mut into = Places {
        marks: given,
        words,
        m,
    };
    loop {
        match turn::one_turn(s, p, &mut into) {
            Err(fault) => {
                return Err(Refusal {
                    fault,
                    offset: p.at,
                });
            }
            Ok(None) => return ended(p),
            Ok(Some(q)) => {
                let r = turn::past_requests(s, q, into.m);
                p = turn::past_acts(s, r);
            }
        }
    }
}

// The answer where the trace ends.
fn ended(p: Progress) -> Result<Facts, Refusal>
    ensures { result ≡ reading p }
{
    if p.section == 0 {
        return Err(Refusal {
            fault: Fault::Order,
            offset: 0,
        });
    }
    Ok(p.facts)
}
