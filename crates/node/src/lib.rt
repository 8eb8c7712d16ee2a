// A message arriving at a request queue: document 01, "Wiring and queues". The node is in hand by value; what its messages and wait
// records carry stands in the machine by tag, since a request is in one place at a time.
#![tactic(auto)]

ghost use Rattle.std.specs.Prelude.{◌≡◌, ◌≤◌};
ghost use Rattle.queue.specs.Inner.Queue.{tags_of, pairs_of, HeldTags};
ghost use Rattle.store.specs.Inner.Memory.{view};
ghost use Rattle.node.specs.Inner.Node.{HeldNode, ApartAt, youngest_tag, found_in, AppendedTo, ArrivedAt};

use queue::{Pairs, Tags};
use store::{Machine, tags};

#[derive(Clone, Copy)]
pub struct Node {
    pub queue: Tags,
    pub waiting: Pairs,
}

#[derive(Clone, Copy)]
pub enum Outcome {
    Merged,
    Appended,
    Refused,
}

#[derive(Clone, Copy)]
pub struct Arrived {
    pub node: Node,
    pub outcome: Outcome,
}

impl Node {
    // A message arriving at a node with room q for messages and w for wait records. A full wait buffer is told first: no merge then.
    pub fn arrive(mut self, m: &mut Machine, t: u8, q: usize, w: usize) -> Arrived
        requires held_node { HeldNode self }
        requires apart_at { ApartAt t (tags_of self.queue) (pairs_of self.waiting) }
        requires q_bound { (q ≤ 4) × (w ≤ 8) }
        ensures { ArrivedAt self (view m.old) t q w m.new result }
    {
        if w <= self.waiting.len {
            return self.append(t, q);
        }
        let address = tags::address_of(m, t);
        let Some(i) = youngest(m, self.queue, address) else {
            return self.append(t, q);
        };
        let older = self.queue.younger(i);
        let before = tags::operation_at(m, older);
        let arriving = tags::operation_at(m, t);
        let Some(merged) = operation::merge(before, arriving) else {
            return self.append(t, q);
        };
        tags::set_operation(m, older, merged);
        tags::set_operation(m, t, before);
        self.waiting = self.waiting.push(older, t);
        Arrived {
            node: self,
            outcome: Outcome::Merged,
        }
    }

    // The message at the end of the queue, where there is room.
    fn append(mut self, t: u8, q: usize) -> Arrived
        requires held_node { HeldNode self }
        requires q_bound { q ≤ 4 }
        ensures { AppendedTo self t q result }
    {
        if self.queue.len < q {
            self.queue = self.queue.push(t);
            return Arrived {
                node: self,
                outcome: Outcome::Appended,
            };
        }
        Arrived {
            node: self,
            outcome: Outcome::Refused,
        }
    }
}

// The place of the youngest tag with the address.
fn youngest(m: &Machine, queue: Tags, address: u8) -> Option<usize>
    requires { HeldTags queue }
    ensures { found_in queue result ≡ youngest_tag (view m.now).fixed.address address (tags_of queue) }
{
    for i in 0..queue.len {
        if tags::address_of(m, queue.younger(i)) == address {
            return Some(i);
        }
    }
    None
}
