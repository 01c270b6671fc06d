// The automaton of a rule, which its owners' walks go by.
ghost use Rattle.std.specs.Prelude.{◌≡◌, true, false, ◌↔◌, ◌≤◌, length};
ghost use Rattle.levels.specs.Sets.{Disjoint, Entries, LetterEntries, Reflexive, Transitive, AllLed, Exactly, LetterExit};
ghost use Rattle.levels.specs.Exits.{Room, Begun, Saturated};

use crate::free::{follow, lead};
use crate::open::Open;
use crate::sets::{intersect, meets};
use crate::{States, next_states};

// Bits, but for the last: the closed free moves, bit 128 * s + t where they lead from state s to state t; the entries of each letter's nodes,
// bit 128 * c + s for the entry s of a node whose set has the letter c; the entries of the special nodes, bit s for the entry s of one; and
// the first number of each special node's block in the table.
#[derive(Clone, Copy)]
pub struct Automaton {
    pub closed: [u64; 256],
    pub letters: [u64; 512],
    pub specials: States,
    pub firsts: [u64; 64],
    pub ghost reflexive: { Reflexive closed },
    pub ghost transitive: { Transitive closed },
    pub ghost letter: { LetterEntries letters },
    pub ghost special: { Entries specials },
}

impl Automaton {
    // The states that free moves lead to from those of a set.
    pub fn closure(&self, set: &States) -> States
        ensures { AllLed self.now.closed set.now result }
    {
        follow(&self.closed, set)
    }

    // Whether a set has the entry of a special node.
    pub fn enters_special(&self, set: &States) -> bool
        ensures { (result ≡ false) ↔ Disjoint set.now self.now.specials }
    {
        meets(set, &self.specials)
    }

    // The exits of the nodes that fit an event and whose entries are in the set.
    pub fn next_states(&self, set: &States, event: u8) -> States
        ensures { Exactly (LetterExit self.now.letters set.now event) result }
    {
        next_states(&self.letters, set, event)
    }

    // The states that are reached at number j from a set that is closed under free moves: special nodes are entered, and left at once where
    // their block has the span of no event.
    pub fn saturate(
        &self,
        table: &[u64],
        set: &States,
        held: &mut Open,
        j: usize,
        n: usize,
    ) -> States
        requires number { j ≤ n }
        requires room { Room self.now.firsts n (length table.now) }
        requires begun { Begun self.now.closed set.now held.old.full }
        ensures { Saturated
            self.now.closed self.now.specials self.now.firsts table.now n j set.now
            held.old.exits held.old.opened held.old.full
            result held.new.exits held.new.opened held.new.full }
    {
        if self.enters_special(set) {
            return self.enter_specials(table, set, held, j, n);
        }
        *set
    }

    // The same where special nodes are entered: each once, but for the full ones, of which nothing more is to be known.
    fn enter_specials(
        &self,
        table: &[u64],
        set: &States,
        held: &mut Open,
        j: usize,
        n: usize,
    ) -> States
        requires number { j ≤ n }
        requires room { Room self.now.firsts n (length table.now) }
        requires begun { Begun self.now.closed set.now held.old.full }
        ensures { Saturated
            self.now.closed self.now.specials self.now.firsts table.now n j set.now
            held.old.exits held.old.opened held.old.full
            result held.new.exits held.new.opened held.new.full }
    {
        let mut entered = held.full;
        let mut reached = *set;
        while let Some(s) = bits::find_missing(&intersect(&reached, &self.specials), &entered) {
            bits::put_in_two(&mut entered, s);
            if held.enter(&self.firsts, table, s, j, n) {
                lead(&self.closed, s + 1, &mut reached);
            }
        }
        reached
    }
}
