// Which requests are answered, and the order list.
ghost use Rattle.std.specs.Prelude.{◌≡◌, false, [], ◌∷◌, ◌<◌, length, get_or};
ghost use Rattle.view.specs.Inner.View.{with_answer, with_order};
ghost use Rattle.store.specs.Inner.Memory.{view, Becomes, Same};

use super::{ANSWERED, EVERY, Machine, ORDER, ORDERED};

#[tactic(auto, using(crate::proofs::Answered::order_reads))]
pub fn is_answered(m: &Machine, t: usize) -> bool
    requires { t < 256 }
    ensures { result ≡ (view m.now).answered t }
{
    words::is_marked(m[ANSWERED + t / 64], t % 64)
}

// Of a request that is not answered yet.
#[tactic(auto, using(crate::proofs::Answered::order_reads))]
pub fn set_answered(m: &mut Machine, t: u8)
    requires { (view m.old).answered t ≡ false }
    ensures { Becomes m.new (with_answer (view m.old) t) }
{
    let i = t as usize;
    let at = ANSWERED + i / 64;
    m[at] = words::with_mark(m[at], i % 64);
}

// "every request is answered"
#[tactic(auto, using(crate::proofs::Answered::order_reads))]
pub fn all_answered(m: &Machine) -> bool
    ensures { Same (view m.now).answered (view m.now).fixed.every result }
{
    m[ANSWERED..ANSWERED + 4] == m[EVERY..EVERY + 4]
}

// One tag more at the end of the order list.
#[tactic(auto, using(crate::proofs::Answered::order_reads))]
pub fn append_order(m: &mut Machine, t: u8)
    requires { length (view m.old).order < 256 }
    ensures { Becomes m.new (with_order (view m.old) (t ∷ [])) }
{
    let n = m[ORDERED] as usize;
    let at = ORDER + n / 8;
    m[at] = words::with_highest(m[at], n % 8, t);
    m[ORDERED] = n as u64 + 1;
}

#[tactic(auto, using(crate::proofs::Answered::order_reads))]
pub fn order_at(m: &Machine, i: usize) -> u8
    requires i_bound { i < 256 }
    requires i_in_bounds { i < length (view m.now).order }
    ensures { result ≡ get_or (view m.now).order i 0 }
{
    words::byte_at(m[ORDER + i / 8], i % 8)
}
