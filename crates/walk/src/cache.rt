// Cached closures: the sets that walks of earlier starts came to, with what free moves lead to from them.
ghost use Rattle.std.specs.Prelude.{◌≡◌, ℕ, List, ◌<◌, length};
ghost use Rattle.levels.specs.Sets.{AllLed};
ghost use Rattle.walk.specs.Caches.{Remembered};

use levels::States;
use levels::automaton::Automaton;

// A set of states, and all that free moves lead to from it.
#[derive(Clone, Copy)]
pub struct Slot {
    pub set: States,
    pub closure: States,
}

// A slot for each number of used events.
pub type Cache = [Slot; 256];

// A cache of empty sets.
pub fn empty_cache() -> Cache
    ensures { (closed : List ℕ) → Remembered closed result }
{
    [Slot {
        set: [0; 2],
        closure: [0; 2],
    }; 256]
}

// What the cache remembers is of an automaton that it does not hold, so that clauses say it, and no ghost field.
// The states that free moves lead to from those of a set at number j: known from an earlier start, as walks that come to a number often agree
// there, or worked out and kept in the number's slot.
pub fn cached_closure(automaton: &Automaton, set: &States, cache: &mut Cache, j: usize) -> States
    requires j_bound { j < 256 }
    requires remembered { Remembered automaton.now.closed cache.old }
    ensures states { AllLed automaton.now.closed set.now result }
    ensures cache { Remembered automaton.now.closed cache.new }
{
    let slot = cache[j];
    if slot.set == *set {
        return slot.closure;
    }
    let closure = automaton.closure(set);
    cache[j] = Slot { set: *set, closure };
    closure
}
