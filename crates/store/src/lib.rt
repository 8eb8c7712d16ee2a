// The machine in code: one array of words. Small numbers are packed: a queue is a word of tags, a wait buffer is two, and lengths stand
// in rows, a word of sixteen for each level. No other crate knows where anything stands.
#![tactic(auto)]

pub mod answers;
pub mod queues;
pub mod shape;
pub mod tags;

// How many words it has.
pub const SIZE: usize = 1152;

// The whole state of a run but for the memory's words. specs/Layout.antt says what stands where.
pub type Machine = [u64; SIZE];

// The shape, the number of requests, and a bit for each of them.
const K: usize = 0;

const Q: usize = 1;

const W: usize = 2;

const COUNT: usize = 3;

const EVERY: usize = 4;

// A bit for each request that is answered.
const ANSWERED: usize = 8;

// How far the order list goes, and the counts of a run.
const ORDERED: usize = 12;

const ACCESSES: usize = 13;

const MERGES: usize = 14;

const ROUNDS: usize = 15;

// Rows of lengths, one for each of levels 0 to 4.
const REQUEST_LENGTHS: usize = 16;

const REPLY_LENGTHS: usize = 21;

const WAIT_LENGTHS: usize = 26;

// The order list, eight tags to a word.
const ORDER: usize = 32;

// Queues, and first and second tags of wait buffers, sixteen words for each of levels 0 to 4.
const REQUESTS: usize = 64;

const REPLIES: usize = 144;

const FIRSTS: usize = 224;

const SECONDS: usize = 304;

// A word for each of 256 tags: the head; the first operand or the reply's value; the second operand.
const HEADS: usize = 384;

const FIRST_OPERANDS: usize = 640;

const SECOND_OPERANDS: usize = 896;
