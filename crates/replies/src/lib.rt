// Module, return and collect: replies on their way out. Each is called where there is something to move.
#![tactic(auto)]

ghost use Rattle.std.specs.Prelude.{◌≡◌, ◌-◌, ◌≤◌, ◌<◌, length, get_or, set};
ghost use Rattle.operation.specs.Operation.{applied};
ghost use Rattle.view.specs.Inner.View.{operation_in};
ghost use Rattle.queue.specs.Inner.Queue.{pairs_of, HeldPairs};
ghost use Rattle.store.specs.Inner.Memory.{view, Becomes};
ghost use Rattle.shown.specs.Inner.Reached.{single};
ghost use Rattle.moves.specs.Inner.Moves.{Ready, ReadyWith, Moves, MovesWithFor};
ghost use Rattle.replies.specs.Inner.Returns.{at_module, WaitsFit, ExpansionFits, with_expansion, Lowered, SplitOff};

use queue::Pairs;
use store::queues::{Replies, Requests};
use store::{Machine, answers, queues, shape, tags};

// "take the oldest message, put (tag, old value) at the end of the reply queue here, store f(old)"
pub fn module_step(m: &mut Machine, words: &mut [u64; 256], position: usize)
    requires ready_with { ReadyWith m.old words.old }
    requires position_bound { (position < 16) × (0 < length (at_module (view m.old) position)) }
    ensures { MovesWithFor (λ k. single 2 k position) m.old words.old m.new words.new }
{
    let k = shape::levels(m);
    let q = shape::queue_room(m);
    if q <= queues::count::<Replies>(m, k, position) {
        return;
    }
    let t = queues::oldest::<Requests>(m, k, position);
    expand(m, k, t);
    shape::add_access(m);
    let old = exchange(m, words, t);
    tags::set_value(m, t, old);
    queues::push_reply(m, k, position, t);
    queues::pop::<Requests>(m, k, position);
}

// "store f(old)": the word at the address of t; the old value comes back.
fn exchange(m: &Machine, words: &mut [u64; 256], t: u8) -> u64
    ensures value { result ≡ get_or words.old ((view m.now).fixed.address t) 0 }
    ensures words_after { words.new ≡ set words.old ((view m.now).fixed.address t)
        (applied (operation_in ((view m.now).carried t)) (get_or words.old ((view m.now).fixed.address t) 0)) }
{
    let a = tags::address_of(m, t) as usize;
    let f = tags::operation_at(m, t);
    let old = words[a];
    words[a] = operation::apply(f, old);
    old
}

// The requests of t up to a level go to the end of the order list: "up to level 0 they are t alone".
fn expand(m: &mut Machine, level: usize, t: u8)
    requires level_bound { level < 5 }
    requires waits_fit { WaitsFit (view m.old) }
    requires expansion_fits { ExpansionFits (view m.old) level t }
    ensures { Becomes m.new (with_expansion (view m.old) level t) }
{
    if level == 0 {
        answers::append_order(m, t);
        return;
    }
    expand(m, level - 1, t);
    let p = tags::position_of(m, t, level);
    let waits = queues::load_waits(m, level, p);
    if waits.len == 0 {
        return;
    }
    let Some(first) = words::place_of(waits.firsts, t) else {
        return;
    };
    for i in first..waits.len {
        if waits.first(i) == t {
            let second = waits.second(i);
            expand(m, level - 1, second);
        }
    }
}

// "look at the oldest reply, tag t, value v. If the wait buffer here has records whose first tag is t, take the oldest of them"
pub fn return_step(m: &mut Machine, level: usize, position: usize)
    requires ready { Ready m.old }
    requires level_nonzero { (0 < level) × (level ≤ (view m.old).fixed.k) × (position < 16) }
    requires nonzero { 0 < length ((view m.old).replies level position) }
    ensures { Moves (single 3 level position) m.old m.new }
{
    let t = queues::oldest::<Replies>(m, level, position);
    let waits = queues::load_waits(m, level, position);
    match waits.find(t) {
        Some(i) => split(m, level, position, t, waits, i),
        None => lower(m, level, position, t),
    }
}

// "If there is none, t itself moves one level down. If the target queue is full nothing changes."
fn lower(m: &mut Machine, level: usize, position: usize, t: u8)
    requires level_nonzero { (0 < level) × (level < 5) × (position < 16) × ((view m.old).fixed.q ≤ 4) }
    requires nonzero { 0 < length ((view m.old).replies level position) }
    ensures { Lowered (view m.old) (level - 1) position t m.new }
{
    let below = level - 1;
    let to = tags::position_of(m, t, below);
    if queues::count::<Replies>(m, below, to) < shape::queue_room(m) {
        queues::pop::<Replies>(m, level, position);
        queues::push_reply(m, below, to, t);
    }
}

// "its second tag is answered with its stored operation applied to v, one level down on that tag's own path. The record goes, t stays."
fn split(m: &mut Machine, level: usize, position: usize, t: u8, waits: Pairs, i: usize)
    requires level_nonzero { (0 < level) × (level < 5) × (position < 16) × ((view m.old).fixed.q ≤ 4) }
    requires held_pairs { HeldPairs waits × (i < waits.len) × (waits.len ≡ length ((view m.old).waits level position)) }
    ensures { SplitOff (view m.old) (level - 1) position t (pairs_of waits) i m.new }
{
    let second = waits.second(i);
    let below = level - 1;
    let target = tags::position_of(m, second, below);
    if queues::count::<Replies>(m, below, target) < shape::queue_room(m) {
        let f = tags::operation_at(m, second);
        let answer = operation::apply(f, tags::value_at(m, t));
        tags::set_value(m, second, answer);
        queues::push_reply(m, below, target, second);
        let fewer = waits.removed(i);
        queues::store_waits(m, level, position, fewer);
    }
}

// "the oldest reply there becomes the answer of its request"
pub fn collect(m: &mut Machine, e: usize)
    requires ready { Ready m.old }
    requires e_bound { (e < 16) × (0 < length ((view m.old).replies 0 e)) }
    ensures { Moves (single 4 0 e) m.old m.new }
{
    let t = queues::oldest::<Replies>(m, 0, e);
    queues::pop::<Replies>(m, 0, e);
    answers::set_answered(m, t);
}
