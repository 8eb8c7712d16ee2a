// The machine before the first event: its shape, each request's next of the same engine, and each engine's first.
#![tactic(auto)]

ghost use Rattle.std.specs.Prelude.{◌≡◌, ◌≤◌, ◌<◌};
ghost use Rattle.store.specs.Inner.Memory.{view};
ghost use Rattle.start.specs.Inner.Linked.{RequestsLoaded, Started, LinkedTo, first_in};

use store::{Machine, queues, shape, tags};

// From the requests that a trace has put into the machine.
pub fn start(m: &mut Machine, k: u64, q: u64, w: u64, count: usize)
    requires { RequestsLoaded m.old k q w count }
    ensures { Started m.old k q w count m.new }
{
    shape::set_shape(m, k, q, w, count);
    for t in (0..count).rev() {
        link(m, t);
    }
}

// The request t before its engine's requests behind it: the engine is the position of its path at level 0.
fn link(m: &mut Machine, t: usize)
    requires { (t < 256) × ((view m.old).fixed.count ≤ 256) }
    ensures { LinkedTo (view m.old) t m.new }
{
    let e = tags::position_of(m, t as u8, 0);
    let n = first_of(m, e);
    tags::set_after(m, t, n);
    queues::set_next(m, e, t);
}

// The first request of engine e so far, or the number of requests.
fn first_of(m: &Machine, e: usize) -> usize
    requires { (e < 16) × ((view m.now).fixed.count ≤ 256) }
    ensures { (result ≡ first_in (view m.now) e) × (result ≤ 256) }
{
    if queues::no_request(m, 0, e) {
        return shape::requests_in(m);
    }
    queues::next_of(m, e) as usize
}
