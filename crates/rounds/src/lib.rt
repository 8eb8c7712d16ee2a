// The drain round, row by row, and the drain: document 01, "Steps". A row takes its step at each position that has something to move,
// lowest first: at the others a step changes nothing. The row's lengths are read once, since a step leaves the other queues of its row as
// they were. Past the N positions of a level nothing ever stands.
#![tactic(auto)]

ghost use Rattle.std.specs.Prelude.{◌≡◌, true, ◌-◌, ◌<◌, ◌^◌};
ghost use Rattle.event.specs.Event.{level_fits};
ghost use Rattle.event.specs.Inner.Steps.{number_of_step};
ghost use Rattle.machine.specs.Run.{row, rows_up, rows_down, round as round_events};
ghost use Rattle.store.specs.Inner.Memory.{view, RowOf};
ghost use Rattle.moves.specs.Inner.Moves.{Ready, ReadyWith, MovesWithFor};
ghost use Rattle.rounds.specs.Inner.Drains.{Drained, AllAnswered};
ghost use Rattle.rounds.specs.Inner.Steps.{queues_of, Takes};

use event::Step;
use store::queues::{Replies, Requests};
use store::{Machine, answers, queues, shape};

// "A drain stops when every request is answered or its allowance is spent."
pub fn drain(m: &mut Machine, words: &mut [u64; 256], allowed: u64)
    requires ready_with { ReadyWith m.old words.old }
    requires m_bound { (view m.old).rounds < 2 ^ 32 }
    ensures { Drained allowed m.old words.old m.new words.new }
{
    for _ in 0..allowed {
        if all_answered(m) {
            return;
        }
        round(m, words);
        shape::add_round(m);
    }
}

// "every request is answered"
pub fn all_answered(m: &Machine) -> bool
    requires { Ready m.now }
    ensures { AllAnswered m.now result }
{
    answers::all_answered(m)
}

// "collects; returns at levels 1 to k; modules; forwards at levels k-1 down to 1; issues; positions ascending"
fn round(m: &mut Machine, words: &mut [u64; 256])
    requires { ReadyWith m.old words.old }
    ensures { MovesWithFor (λ k. round_events k (2 ^ k)) m.old words.old m.new words.new }
{
    let k = shape::levels(m);
    at_each_busy(m, words, Step::Collect, 0, |m, _, p| replies::collect(m, p));
    returns_up(m, words);
    at_each_busy(m, words, Step::Module, k, replies::module_step);
    forwards_down(m, words);
    at_each_busy(m, words, Step::Issue, 0, |m, _, p| requests::issue(m, p));
}

// "returns at levels 1 to k"
fn returns_up(m: &mut Machine, words: &mut [u64; 256])
    requires { ReadyWith m.old words.old }
    ensures { MovesWithFor (λ k. rows_up 3 k (2 ^ k)) m.old words.old m.new words.new }
{
    for level in 1..=shape::levels(m) {
        at_each_busy(m, words, Step::Return, level, |m, _, p| {
            replies::return_step(m, level, p)
        });
    }
}

// "forwards at levels k-1 down to 1"
fn forwards_down(m: &mut Machine, words: &mut [u64; 256])
    requires { ReadyWith m.old words.old }
    ensures { MovesWithFor (λ k. rows_down 1 (k - 1) (2 ^ k)) m.old words.old m.new words.new }
{
    for level in (1..shape::levels(m)).rev() {
        at_each_busy(
            m,
            words,
            Step::Forward,
            level,
            |m, _, p| requests::forward(m, level, p),
        );
    }
}

// A row: the step, taken by `take`, at each position of a level that has something to move. A copy of the loop is made for each
// kind of step, so that the step stands in it.
fn at_each_busy<F: Fn(&mut Machine, &mut [u64; 256], usize)>(
    m: &mut Machine,
    words: &mut [u64; 256],
    step: Step,
    level: usize,
    take: F,
)
    requires ready_with { ReadyWith m.old words.old }
    requires level_value { level_fits (view m.old).fixed.k (number_of_step step) level ≡ true }
    requires takes { Takes (number_of_step step) level (view m.old).fixed.k (F.pre take) (λ m words p m' words'. F.post take m words p tt m' words') }
    ensures { MovesWithFor (λ k. row (number_of_step step) level (2 ^ k)) m.old words.old m.new words.new }
{
    // no range: the next busy position is found in the row, and the idle ones are not looked at
    let mut left = busy_row(m, step, level);
    while left != 0 {
        let p = words::first_busy(left);
        take(m, words, p);
        left = words::lengths_above(left, p);
    }
}

// The lengths of the queues that a kind of step takes from.
fn busy_row(m: &Machine, step: Step, level: usize) -> u64
    requires { level < 5 }
    ensures { RowOf (queues_of (number_of_step step) (view m.now) level) result }
{
    match step {
        Step::Issue | Step::Forward | Step::Module => queues::row::<Requests>(m, level),
        Step::Return | Step::Collect => queues::row::<Replies>(m, level),
    }
}
