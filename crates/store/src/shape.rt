// The shape of the network, the number of requests, and the counts of a run.
ghost use Rattle.std.specs.Prelude.{◌≡◌, ◌≤◌, ◌<◌, ◌^◌, length};
ghost use Rattle.view.specs.Inner.View.{with_fixed, with_access, with_merge, with_round, shaped};
ghost use Rattle.store.specs.Inner.Memory.{view, Becomes};

use super::{ACCESSES, COUNT, EVERY, K, MERGES, Machine, ORDERED, Q, ROUNDS, W};

// Of a machine with nothing in its counts and queues.
pub fn set_shape(m: &mut Machine, k: u64, q: u64, w: u64, count: usize)
    requires { count ≤ 256 }
    ensures { Becomes m.new (with_fixed (view m.old) (shaped (view m.old).fixed k q w count)) }
{
    m[K] = k;
    m[Q] = q;
    m[W] = w;
    m[COUNT] = count as u64;
    // of the 64 requests of each word those below count
    for i in 0..4 {
        m[EVERY + i] = words::low_marks(count.saturating_sub(i * 64).min(64));
    }
}

#[tactic(auto, unfolding(crate::specs::Inner::Memory::view, crate::specs::Inner::Memory::fixed_in))]
pub fn levels(m: &Machine) -> usize
    ensures { result ≡ (view m.now).fixed.k }
{
    m[K] as usize
}

#[tactic(auto, unfolding(crate::specs::Inner::Memory::view, crate::specs::Inner::Memory::fixed_in))]
pub fn queue_room(m: &Machine) -> usize
    ensures { result ≡ (view m.now).fixed.q }
{
    m[Q] as usize
}

#[tactic(auto, unfolding(crate::specs::Inner::Memory::view, crate::specs::Inner::Memory::fixed_in))]
pub fn wait_room(m: &Machine) -> usize
    ensures { result ≡ (view m.now).fixed.w }
{
    m[W] as usize
}

#[tactic(auto, unfolding(crate::specs::Inner::Memory::view, crate::specs::Inner::Memory::fixed_in))]
pub fn requests_in(m: &Machine) -> usize
    ensures { result ≡ (view m.now).fixed.count }
{
    m[COUNT] as usize
}

#[tactic(auto, using(crate::proofs::Answered::order_reads))]
pub fn ordered(m: &Machine) -> usize
    ensures { result ≡ length (view m.now).order }
{
    m[ORDERED] as usize
}

#[tactic(auto, unfolding(crate::specs::Inner::Memory::view))]
pub fn accesses(m: &Machine) -> u64
    ensures { result ≡ (view m.now).accesses }
{
    m[ACCESSES]
}

#[tactic(auto, unfolding(crate::specs::Inner::Memory::view))]
pub fn merges(m: &Machine) -> u64
    ensures { result ≡ (view m.now).merges }
{
    m[MERGES]
}

#[tactic(auto, unfolding(crate::specs::Inner::Memory::view))]
pub fn rounds(m: &Machine) -> u64
    ensures { result ≡ (view m.now).rounds }
{
    m[ROUNDS]
}

#[tactic(auto, unfolding(crate::specs::Inner::Memory::view))]
pub fn add_access(m: &mut Machine)
    requires { (view m.old).accesses < 65536 }
    ensures { Becomes m.new (with_access (view m.old)) }
{
    m[ACCESSES] = m[ACCESSES] + 1;
}

#[tactic(auto, unfolding(crate::specs::Inner::Memory::view))]
pub fn add_merge(m: &mut Machine)
    requires { (view m.old).merges < 65536 }
    ensures { Becomes m.new (with_merge (view m.old)) }
{
    m[MERGES] = m[MERGES] + 1;
}

#[tactic(auto, unfolding(crate::specs::Inner::Memory::view))]
pub fn add_round(m: &mut Machine)
    requires { (view m.old).rounds < 2 ^ 33 }
    ensures { Becomes m.new (with_round (view m.old)) }
{
    m[ROUNDS] = m[ROUNDS] + 1;
}
