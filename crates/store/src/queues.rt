// Queues and wait buffers by level and position.
ghost use Rattle.std.specs.Prelude.{◌≡◌, refl, ℕ, [], ◌∷◌, suc, ◌≤◌, ◌<◌, eqb, ltb, length, get_or, drop};
ghost use Rattle.lists.specs.Choice.{choose};
ghost use Rattle.store.specs.Inner.Kinds.{Kind, requests, replies, lengths_of, words_of, lowest, queues_in, with_queue};
ghost use Rattle.view.specs.Inner.View.{with_requests, with_replies, with_reply, with_waits};
ghost use Rattle.queue.specs.Inner.Queue.{tags_of, pairs_of, HeldTags, HeldPairs};
ghost use Rattle.store.specs.Inner.Memory.{view, Becomes, RowOf};

use super::{
    COUNT, FIRSTS, Machine, REPLIES, REPLY_LENGTHS, REQUEST_LENGTHS, REQUESTS, SECONDS,
    WAIT_LENGTHS,
};
use queue::{Pairs, Tags};

// A kind of queue: where its words of tags and its rows of lengths stand.
pub trait Queues {
    const LENGTHS: usize;

    const WORDS: usize;

    ghost LENGTHS: { ℕ };

    ghost WORDS: { ℕ };

    ghost kind: { Kind };

    ghost placed: { (LENGTHS ≡ lengths_of kind) × (WORDS ≡ words_of kind) };
}

// Message queues: at level 0 the engines' next requests.
#[derive(Clone, Copy)]
pub struct Requests;

impl Queues for Requests {
    const LENGTHS: usize = REQUEST_LENGTHS;

    const WORDS: usize = REQUESTS;

    ghost LENGTHS = { lengths_of requests };

    ghost WORDS = { words_of requests };

    ghost kind = { requests };

    ghost placed = { (refl, refl) };
}

// Reply queues.
#[derive(Clone, Copy)]
pub struct Replies;

impl Queues for Replies {
    const LENGTHS: usize = REPLY_LENGTHS;

    const WORDS: usize = REPLIES;

    ghost LENGTHS = { lengths_of replies };

    ghost WORDS = { words_of replies };

    ghost kind = { replies };

    ghost placed = { (refl, refl) };
}

// ---- one kind of queue

// How long a queue is.
#[tactic(auto, using(crate::proofs::Queued::queue_reads))]
pub fn count<T: Queues>(m: &Machine, level: usize, position: usize) -> usize
    requires { (lowest T.kind ≤ level) × (level < 5) × (position < 16) }
    ensures { (result ≡ length (queues_in T.kind (view m.now) level position)) × (result < 16) }
{
    words::length_in(m[T::LENGTHS + level], position)
}

// A level's row: a length for each position, 0 where the queue is empty.
#[tactic(auto, using(crate::proofs::Queued::queue_reads))]
pub fn row<T: Queues>(m: &Machine, level: usize) -> u64
    requires { level < 5 }
    ensures { RowOf (queues_in T.kind (view m.now) level) result }
{
    m[T::LENGTHS + level]
}

// A queue by value.
#[tactic(auto, using(crate::proofs::Queued::queue_reads))]
pub fn load<T: Queues>(m: &Machine, level: usize, position: usize) -> Tags
    requires level_bound { (lowest T.kind ≤ level) × (level < 5) × (position < 16) }
    requires position_len_bound { length (queues_in T.kind (view m.now) level position) ≤ 8 }
    ensures { (tags_of result ≡ queues_in T.kind (view m.now) level position) × HeldTags result }
{
    Tags {
        items: m[T::WORDS + (level * 16 + position)],
        len: count::<T>(m, level, position),
    }
}

// The oldest of a queue that is not empty.
#[tactic(auto, using(crate::proofs::Queued::queue_reads))]
pub fn oldest<T: Queues>(m: &Machine, level: usize, position: usize) -> u8
    requires level_bound { (lowest T.kind ≤ level) × (level < 5) × (position < 16) }
    requires nonzero { (0 < length (queues_in T.kind (view m.now) level position)) × (length (queues_in T.kind (view m.now) level position) ≤ 8) }
    ensures { result ≡ get_or (queues_in T.kind (view m.now) level position) 0 0 }
{
    load::<T>(m, level, position).oldest()
}

// The oldest goes with the length alone.
#[tactic(auto, using(crate::proofs::Queued::queue_lengths))]
pub fn pop<T: Queues>(m: &mut Machine, level: usize, position: usize)
    requires level_bound { (lowest T.kind ≤ level) × (level < 5) × (position < 16) }
    requires nonzero { 0 < length (queues_in T.kind (view m.old) level position) }
    ensures { Becomes m.new (with_queue T.kind (view m.old) level position (drop 1 (queues_in T.kind (view m.old) level position))) }
{
    let row = T::LENGTHS + level;
    m[row] = words::one_less(m[row], position);
}

// ---- wait buffers, whose records have two tags, and what one kind of queue alone has

#[tactic(auto, using(crate::proofs::Queued::queue_reads))]
pub fn wait_count(m: &Machine, level: usize, position: usize) -> usize
    requires { (level < 5) × (position < 16) }
    ensures { (result ≡ length ((view m.now).waits level position)) × (result < 16) }
{
    words::length_in(m[WAIT_LENGTHS + level], position)
}

// Whether there is no request, at level 0 none to issue: `count` leaves level 0 out, where the queue is one request.
#[tactic(auto, using(crate::proofs::Queued::queue_reads))]
pub fn no_request(m: &Machine, level: usize, position: usize) -> bool
    requires { (level < 5) × (position < 16) }
    ensures { result ≡ eqb (length ((view m.now).requests level position)) 0 }
{
    words::length_in(m[REQUEST_LENGTHS + level], position) == 0
}

// ---- by value

#[tactic(auto, using(crate::proofs::Queued::queue_reads))]
pub fn load_waits(m: &Machine, level: usize, position: usize) -> Pairs
    requires level_bound { (level < 5) × (position < 16) }
    requires position_len_bound { length ((view m.now).waits level position) ≤ 8 }
    ensures { (pairs_of result ≡ (view m.now).waits level position) × HeldPairs result }
{
    let at = level * 16 + position;
    Pairs {
        firsts: m[FIRSTS + at],
        seconds: m[SECONDS + at],
        len: wait_count(m, level, position),
    }
}

// A queue with one request more than it had: its row of lengths goes up by one.
#[tactic(auto, using(crate::proofs::Queued::queue_lengths))]
pub fn store_longer_requests(m: &mut Machine, level: usize, position: usize, queue: Tags)
    requires level_nonzero { (0 < level) × (level < 5) × (position < 16) }
    requires held_tags { HeldTags queue × (queue.len ≡ suc (length ((view m.old).requests level position))) }
    ensures { Becomes m.new (with_requests (view m.old) level position (tags_of queue)) }
{
    m[REQUESTS + (level * 16 + position)] = queue.items;
    let row = REQUEST_LENGTHS + level;
    m[row] = words::one_more(m[row], position);
}

// A wait buffer by value: two words, and their length.
pub fn store_waits(m: &mut Machine, level: usize, position: usize, waits: Pairs)
    requires level_bound { (level < 5) × (position < 16) }
    requires held_pairs { HeldPairs waits }
    ensures { Becomes m.new (with_waits (view m.old) level position (pairs_of waits)) }
{
    let at = level * 16 + position;
    m[FIRSTS + at] = waits.firsts;
    m[SECONDS + at] = waits.seconds;
    let row = WAIT_LENGTHS + level;
    m[row] = words::with_length(m[row], position, waits.len);
}

// ---- one reply more

#[tactic(auto, using(crate::proofs::Queued::queue_lengths))]
pub fn push_reply(m: &mut Machine, level: usize, position: usize, t: u8)
    requires level_bound { (level < 5) × (position < 16) }
    requires position_len_bound { length ((view m.old).replies level position) < 8 }
    ensures { Becomes m.new (with_reply (view m.old) level position t) }
{
    let at = REPLIES + (level * 16 + position);
    m[at] = words::with_lowest(m[at], t);
    let row = REPLY_LENGTHS + level;
    m[row] = words::one_more(m[row], position);
}

// ---- level 0

// The next request of engine e, which has one.
#[tactic(auto, using(crate::proofs::Queued::queue_reads))]
pub fn next_of(m: &Machine, e: usize) -> u8
    requires e_bound { e < 16 }
    requires nonzero { 0 < length ((view m.now).requests 0 e) }
    ensures { result ≡ get_or ((view m.now).requests 0 e) 0 0 }
{
    words::byte_at(m[REQUESTS + e], 0)
}

// The next request of engine e: n where there is such a request, else none.
#[tactic(auto, using(crate::proofs::Queued::queue_lengths))]
pub fn set_next(m: &mut Machine, e: usize, n: usize)
    requires e_bound { e < 16 }
    requires m_bound { (view m.old).fixed.count ≤ 256 }
    ensures { Becomes m.new (with_requests (view m.old) 0 e (choose (ltb n (view m.old).fixed.count) (n ∷ []) [])) }
{
    let row = m[REQUEST_LENGTHS];
    if n < m[COUNT] as usize {
        m[REQUESTS + e] = n as u64;
        if words::length_in(row, e) == 0 {
            m[REQUEST_LENGTHS] = words::one_more(row, e);
        }
        return;
    }
    m[REQUEST_LENGTHS] = words::with_length(row, e, 0);
}

// The same where engine e has a request: n takes its place.
pub fn replace_next(m: &mut Machine, e: usize, n: usize)
    requires e_bound { e < 16 }
    requires m_bound { (view m.old).fixed.count ≤ 256 }
    requires nonzero { 0 < length ((view m.old).requests 0 e) }
    ensures { Becomes m.new (with_requests (view m.old) 0 e (choose (ltb n (view m.old).fixed.count) (n ∷ []) [])) }
{
    if n < m[COUNT] as usize {
        m[REQUESTS + e] = n as u64;
        return;
    }
    m[REQUEST_LENGTHS] = words::with_length(m[REQUEST_LENGTHS], e, 0);
}
