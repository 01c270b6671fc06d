// The marks of one walk, the row of its start that they show, and the start whose walk goes no further than its initial states. The places at
// number j, where j events are used, are elements 2 * j and 2 * j + 1 of the marks, one bit a state.
#![tactic(auto)]

pub mod counting;
pub mod ends;
pub mod rows;
pub mod steps;
pub mod target;

ghost use Rattle.std.specs.Prelude.{◌≡◌, true, ◌↔◌, ℕ, ◌+◌, ◌*◌, ◌≤◌, ◌<◌, replicate};
ghost use Rattle.bits.specs.Bit.{bit_at};
ghost use Rattle.bits.specs.Runs.{tally_below, Adds};
ghost use Rattle.marks.specs.Marks.{StartsAt, PlaceOf, StoredAt, MarkedAt, Finished};

use crate::target::Target;
use levels::States;

// How many states a set has.
fn size(set: &States) -> u64
    ensures { (result ≡ tally_below 128 (bit_at set.now)) × (result ≤ 128) }
{
    u64::from(set[0].count_ones()) + u64::from(set[1].count_ones())
}

// The places of one walk.
#[derive(Clone, Copy)]
pub struct Marks {
    pub places: [u64; 512],
}

impl Marks {
    // Nothing is marked.
    pub fn new() -> Marks
        ensures { result.places ≡ replicate 512 0 }
    {
        Marks { places: [0; 512] }
    }

    // Marks where a walk of the target from start i begins.
    pub fn mark_start(&mut self, target: Target, i: usize)
        requires { i < 256 }
        ensures { Adds self.old.places (StartsAt target i) self.new.places }
    {
        bits::put(&mut self.places, 128 * i + target.left.saturating_sub(1));
        bits::put(&mut self.places, 128 * i + target.right.saturating_sub(1));
    }

    // The states that are marked at number j.
    pub fn states_at(&self, j: usize) -> States
        requires { j < 256 }
        ensures { (s : ℕ) → s < 128 → bit_at result s ≡ bit_at self.now.places (128 * j + s) }
    {
        [self.places[2 * j], self.places[2 * j + 1]]
    }

    // Adds the states that are marked at number j to a set.
    pub fn add_to(&self, j: usize, set: &mut States)
        requires { j < 256 }
        ensures { Adds set.old (MarkedAt self.now.places j) set.new }
    {
        bits::merge(set, 0, self.places[2 * j]);
        bits::merge(set, 1, self.places[2 * j + 1]);
    }

    // Marks the states of a set at number j.
    pub fn mark(&mut self, set: &States, j: usize)
        requires { j < 256 }
        ensures { Adds self.old.places (PlaceOf set.now j) self.new.places }
    {
        bits::merge(&mut self.places, 2 * j, set[0]);
        bits::merge(&mut self.places, 2 * j + 1, set[1]);
    }

    // Stores a set at number j in place of what is marked there: no join, so that a compiler sees what is never read of the marks, which it
    // need not clear, and counts the two numbers of a set at once.
    pub fn store(&mut self, set: &States, j: usize)
        requires { j < 256 }
        ensures { StoredAt self.old.places set.now j self.new.places }
    {
        self.places[2 * j] = set[0];
        self.places[2 * j + 1] = set[1];
    }

    // How many places are marked at number j.
    pub fn count_at(&self, j: usize) -> u64
        requires { j < 256 }
        ensures { (result ≡ tally_below 128 (λ (s : ℕ). bit_at self.now.places (128 * j + s))) × (result ≤ 128) }
    {
        size(&self.states_at(j))
    }

    // Tells that a walk goes no further: nothing is marked at number j, and no special node is open.
    pub fn is_finished(&self, opened: &States, j: usize) -> bool
        requires { j < 256 }
        ensures { (result ≡ true) ↔ Finished self.now.places opened.now j }
    {
        levels::is_empty(&self.states_at(j)) && levels::is_empty(opened)
    }
}
