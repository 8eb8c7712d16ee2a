// The results of a run, copied out to the caller's lent slices: one function for each kind of slice, which may be longer than what goes
// into it. A loop writes by index: after `iter_mut` the prover knows the length alone.
#![tactic(auto)]

ghost use Rattle.std.specs.Prelude.{◌≡◌, ◌≤◌, ◌<◌, length};
ghost use Rattle.store.specs.Inner.Memory.{view};
ghost use Rattle.results.specs.Inner.Copied.{value_in, values_in, mark_in, marks_in};
ghost use Rattle.lists.specs.Over.{over};

use store::{Machine, answers, shape, tags};

// "first R reply values (0 where unanswered)"
#[tactic(auto, using(crate::proofs::Filling::filled_none))]
pub fn copy_values(m: &Machine, n: usize, replies: &mut [u64])
    requires { (n ≤ 256) × (n ≤ length replies.old) }
    ensures { replies.new ≡ over (values_in (view m.now) n) replies.old }
{
    for t in 0..n {
        replies[t] = value_of(m, t);
    }
}

// "and marks (1 answered, 0 otherwise)"
#[tactic(auto, using(crate::proofs::Filling::filled_none))]
pub fn copy_marks(m: &Machine, n: usize, marks: &mut [u8])
    requires { (n ≤ 256) × (n ≤ length marks.old) }
    ensures { marks.new ≡ over (marks_in (view m.now) n) marks.old }
{
    for t in 0..n {
        marks[t] = mark_of(m, t);
    }
}

// "order places up to its length"
#[tactic(auto, using(crate::proofs::Filling::order_ends))]
pub fn copy_order(m: &Machine, order: &mut [u64])
    requires { (length (view m.now).order ≤ 256) × (length (view m.now).order ≤ length order.old) }
    ensures { order.new ≡ over (view m.now).order order.old }
{
    for i in 0..shape::ordered(m) {
        order[i] = answers::order_at(m, i) as u64;
    }
}

// "the 256 words"
pub fn copy_words(memory: &[u64; 256], words: &mut [u64])
    requires { 256 ≤ length words.old }
    ensures { words.new ≡ over memory.now words.old }
{
    words[..256].copy_from_slice(memory);
}

fn value_of(m: &Machine, t: usize) -> u64
    requires { t < 256 }
    ensures { result ≡ value_in (view m.now) t }
{
    if answers::is_answered(m, t) {
        tags::value_at(m, t as u8)
    } else {
        0
    }
}

fn mark_of(m: &Machine, t: usize) -> u8
    requires { t < 256 }
    ensures { result ≡ mark_in (view m.now) t }
{
    answers::is_answered(m, t) as u8
}
