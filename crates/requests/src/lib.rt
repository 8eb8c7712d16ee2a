// Issue and forward: requests on their way in. Each is called where there is something to move.
#![tactic(auto)]

ghost use Rattle.std.specs.Prelude.{◌≡◌, ◌<◌, length};
ghost use Rattle.requests.specs.Inner.Arrivals.{is_full, MayArrive};
ghost use Rattle.store.specs.Inner.Memory.{view};
ghost use Rattle.shown.specs.Inner.Reached.{single};
ghost use Rattle.moves.specs.Inner.Moves.{Ready, Moves, Went};

use node::{Node, Outcome};
use store::queues::Requests;
use store::{Machine, queues, shape, tags};

// "engine e's next unissued request, in trace order, arrives at level 1 on its path"
pub fn issue(m: &mut Machine, e: usize)
    requires ready { Ready m.old }
    requires e_bound { (e < 16) × (0 < length ((view m.old).requests 0 e)) }
    ensures { Moves (single 0 0 e) m.old m.new }
{
    let t = queues::next_of(m, e);
    let to = tags::position_of(m, t, 1);
    if is_full(m, 1, to) {
        return;
    }
    // read before a merge writes to the same word
    let after = tags::after_of(m, t);
    if arrive_at(m, t, 1, to) {
        queues::replace_next(m, e, after);
    }
}

// "the oldest message there arrives at level s+1"
pub fn forward(m: &mut Machine, level: usize, position: usize)
    requires ready { Ready m.old }
    requires level_nonzero { (0 < level) × (level < (view m.old).fixed.k) × (position < 16) }
    requires nonzero { 0 < length ((view m.old).requests level position) }
    ensures { Moves (single 1 level position) m.old m.new }
{
    let t = queues::oldest::<Requests>(m, level, position);
    let to = tags::position_of(m, t, level + 1);
    if is_full(m, level + 1, to) {
        return;
    }
    if arrive_at(m, t, level + 1, to) {
        queues::pop::<Requests>(m, level, position);
    }
}

// Neither the queue nor the wait buffer has room: told before anything is loaded, for that is most of what happens in a jammed network.
fn is_full(m: &Machine, level: usize, position: usize) -> bool
    requires { (0 < level) × (level < 5) × (position < 16) }
    ensures { result ≡ is_full (view m.now) level position }
{
    shape::queue_room(m) <= queues::count::<Requests>(m, level, position)
        && shape::wait_room(m) <= queues::wait_count(m, level, position)
}

// The message t arrives at a level and position; whether it could.
fn arrive_at(m: &mut Machine, t: u8, level: usize, position: usize) -> bool
    requires { MayArrive (view m.old) t level position }
    ensures { Went (view m.old) t level position m.new result }
{
    let q = shape::queue_room(m);
    let w = shape::wait_room(m);
    let node = Node {
        queue: queues::load::<Requests>(m, level, position),
        waiting: queues::load_waits(m, level, position),
    };
    let arrived = node.arrive(m, t, q, w);
    match arrived.outcome {
        Outcome::Refused => false,
        Outcome::Appended => {
            queues::store_longer_requests(m, level, position, arrived.node.queue);
            true
        }
        Outcome::Merged => {
            queues::store_waits(m, level, position, arrived.node.waiting);
            shape::add_merge(m);
            true
        }
    }
}
