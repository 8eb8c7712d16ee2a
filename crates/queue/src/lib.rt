// A position's queue and wait buffer by value: tags in words, a byte each. What a message, a wait record or a reply carries stands in the
// machine by tag.
#![tactic(auto)]

ghost use Rattle.std.specs.Prelude.{◌≡◌, [], ◌∷◌, ◌++◌, suc, ◌<◌, get_or, take, drop, eqb};
ghost use Rattle.lists.specs.Search.{first_of};
ghost use Rattle.words.specs.Inner.Digits.{byte_in};
ghost use Rattle.lists.specs.Inner.Pair.{Pair};
ghost use Rattle.queue.specs.Inner.Queue.{tags_of, pairs_of, HeldTags, HeldPairs, found_at};

// A request queue or a reply queue: the youngest tag in the lowest byte.
#[derive(Clone, Copy)]
pub struct Tags {
    pub items: u64,
    pub len: usize,
}

// A wait buffer: first tags and second tags, those of the oldest record in the lowest bytes.
#[derive(Clone, Copy)]
pub struct Pairs {
    pub firsts: u64,
    pub seconds: u64,
    pub len: usize,
}

impl Tags {
    pub fn push(mut self, t: u8) -> Tags
        requires { self.len < 8 }
        ensures { (tags_of result ≡ tags_of self ++ (t ∷ [])) × HeldTags result }
    {
        self.items = words::with_lowest(self.items, t);
        self.len += 1;
        self
    }

    // The oldest tag, of a queue that is not empty.
    pub fn oldest(self) -> u8
        requires held_tags { HeldTags self }
        requires len_nonzero { 0 < self.len }
        ensures { result ≡ get_or (tags_of self) 0 0 }
    {
        words::byte_at(self.items, self.len - 1)
    }

    // The tag with i younger ones.
    pub fn younger(self, i: usize) -> u8
        requires { i < 8 }
        ensures { result ≡ byte_in self.items i }
    {
        words::byte_at(self.items, i)
    }
}

impl Pairs {
    pub fn push(mut self, first: u8, second: u8) -> Pairs
        requires { self.len < 8 }
        ensures { (pairs_of result ≡ pairs_of self ++ (record { first = first; second = second } ∷ [])) × HeldPairs result }
    {
        let n = self.len;
        self.firsts = words::with_highest(self.firsts, n, first);
        self.seconds = words::with_highest(self.seconds, n, second);
        self.len = n + 1;
        self
    }

    pub fn first(self, i: usize) -> u8
        requires { i < 8 }
        ensures { result ≡ byte_in self.firsts i }
    {
        words::byte_at(self.firsts, i)
    }

    pub fn second(self, i: usize) -> u8
        requires { i < 8 }
        ensures { result ≡ byte_in self.seconds i }
    {
        words::byte_at(self.seconds, i)
    }

    // The oldest record with the first tag.
    pub fn find(self, t: u8) -> Option<usize>
        requires { HeldPairs self }
        ensures { found_at (pairs_of self) result ≡ first_of (λ (p : Pair). eqb p.first t) (pairs_of self) }
    {
        // most wait buffers are empty, and that is told without a search
        if self.len == 0 {
            return None;
        }
        match words::place_of(self.firsts, t) {
            Some(i) if i < self.len => Some(i),
            _ => None,
        }
    }

    // The records without that at a place.
    pub fn removed(mut self, i: usize) -> Pairs
        requires held_pairs { HeldPairs self }
        requires i_lt_len { i < self.len }
        ensures { (pairs_of result ≡ take i (pairs_of self) ++ drop (suc i) (pairs_of self)) × HeldPairs result }
    {
        self.firsts = words::without_byte(self.firsts, i);
        self.seconds = words::without_byte(self.seconds, i);
        self.len = self.len - 1;
        self
    }
}
