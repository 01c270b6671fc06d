// One number of used events of a walk: sets of states, what free moves lead to, the exits to come of special nodes, and events.
#![tactic(auto)]

pub mod automaton;
mod events;
mod exits;
mod free;
pub mod open;
mod sets;

ghost use Rattle.std.specs.Prelude.{◌≡◌, true, ◌↔◌};
ghost use Rattle.levels.specs.Sets.{Exactly, LetterEntries, LetterExit, NoState};

use crate::events::next;

// A set of states: state s as bit s.
pub type States = [u64; 2];

// Whether a set has no state.
pub fn is_empty(set: &States) -> bool
    ensures { (result ≡ true) ↔ NoState set.now }
{
    set[0] | set[1] == 0
}

// The exits of the nodes that fit an event and whose entries are in the set, where bit 128 * c + s of the letters is for the entry s of a node
// whose set has the letter c.
pub fn next_states(letters: &[u64; 512], set: &States, event: u8) -> States
    requires { LetterEntries letters.now }
    ensures { Exactly (LetterExit letters.now set.now event) result }
{
    next(letters, set, usize::from(event))
}
