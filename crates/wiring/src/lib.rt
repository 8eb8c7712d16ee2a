// The omega network's wiring: document 01, "Wiring and queues", after Lawrie, "Access and Alignment of Data in an Array Processor", 1975.
#![tactic(auto)]

ghost use Rattle.std.specs.Prelude.{◌≡◌, ◌^◌, ◌≤◌, ◌<◌};
ghost use Rattle.wiring.specs.Wiring.{module_of};
ghost use Rattle.wiring.specs.Inner.Path.{position_on, PathOf};

// The module that a word belongs to.
pub fn module_of(k: usize, address: u64) -> u64
    requires { k ≤ 4 }
    ensures { (result ≡ module_of k address) × (result < 2 ^ k) }
{
    address % (1u64 << k)
}

// The positions of an engine's path to the module of an address, one word: four bits for each of levels 0 to k, level 0 the lowest.
pub fn path_of(k: usize, engine: u64, address: u64) -> u64
    requires { (k ≤ 4) × (engine < 2 ^ k) }
    ensures { PathOf k engine (module_of k address) result }
{
    // the bits of the engine, then those of the module: the position at level s is what k bits of them show, k - s from the lowest on
    let mut route = (engine << k) + module_of(k, address);
    let mut path = 0;
    for _ in 0..=k {
        path = path * 16 + module_of(k, route);
        route /= 2;
    }
    path
}

// The position of a path at a level.
pub fn position_on(path: u64, level: usize) -> usize
    requires { level < 5 }
    ensures { (result ≡ position_on path level) × (result < 16) }
{
    ((path >> (level * 4)) % 16) as usize
}

// N = 2^k: how many positions each level has.
pub fn width(k: usize) -> usize
    requires { k ≤ 4 }
    ensures { (result ≡ 2 ^ k) × (result ≤ 16) }
{
    1usize << k
}
