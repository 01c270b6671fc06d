// The special nodes that a walk has entered, and where they are left.
ghost use Rattle.std.specs.Prelude.{◌≡◌, ◌+◌, ◌*◌, ◌/◌, ◌%◌, ◌<◌, ◌≤◌, length, replicate};
ghost use Rattle.levels.specs.Sets.{Exactly, Entries};
ghost use Rattle.levels.specs.Exits.{DueExit, FullAt, Room, has_span};
ghost use Rattle.levels.specs.Private.{NodeEntered};

use crate::exits::{exits_of, join_row, put_full};
use crate::{States, is_empty};
use table::Block;

// The exits to come, bit 256 * i + k where node i is left at number k; the entries of the nodes that are open, as they were entered; and those
// of the open nodes that are full, as they are left at every number that is left. What the exits have for other nodes says nothing.
#[derive(Clone, Copy)]
pub struct Open {
    pub exits: [u64; 256],
    pub opened: States,
    pub full: States,
}

impl Open {
    // No node is open.
    pub fn new() -> Open
        ensures exits { result.exits ≡ replicate 256 0 }
        ensures opened { result.opened ≡ replicate 2 0 }
        ensures full { result.full ≡ replicate 2 0 }
    {
        Open {
            exits: [0; 256],
            opened: [0; 2],
            full: [0; 2],
        }
    }

    // Forgets the nodes that are open; their exits stay, as clearing them would take long.
    pub fn forget(&mut self)
        ensures exits { self.new.exits ≡ self.old.exits }
        ensures opened { self.new.opened ≡ replicate 2 0 }
        ensures full { self.new.full ≡ replicate 2 0 }
    {
        self.opened = [0; 2];
        self.full = [0; 2];
    }

    // The exits of the open nodes that are left at number j, where those of the full ones are among them.
    pub fn due_exits(&self, j: usize) -> States
        requires j_bound { j < 256 }
        requires entries { Entries self.now.opened }
        requires full_at { FullAt self.now.exits self.now.opened self.now.full j }
        ensures { Exactly (DueExit self.now.exits self.now.opened j) result }
    {
        // Most walks have no open node.
        if is_empty(&self.opened) {
            return [0; 2];
        }
        self.due(j)
    }

    // The same where a node may be open; of the full ones nothing need be looked up.
    fn due(&self, j: usize) -> States
        requires j_bound { j < 256 }
        requires entries { Entries self.now.opened }
        requires full_at { FullAt self.now.exits self.now.opened self.now.full j }
        ensures { Exactly (DueExit self.now.exits self.now.opened j) result }
    {
        let mut states = exits_of(&self.full);
        let mut done = self.full;
        while let Some(s) = bits::find_missing(&self.opened, &done) {
            bits::put_in_two(&mut done, s);
            if bits::test(&self.exits, 128 * s + j) {
                bits::put_in_two(&mut states, s + 1);
            }
        }
        states
    }

    // Enters the special node of the entry s at number j: it is to be left at the ends of its spans from j. Tells whether that is j itself.
    pub fn enter(&mut self, firsts: &[u64; 64], table: &[u64], s: usize, j: usize, n: usize) -> bool
        requires s_bound { (s < 128) × (s % 2 ≡ 0) × (j ≤ n) }
        requires room { Room firsts.now n (length table.now) }
        ensures node { NodeEntered firsts.now table.now n j s
            self.old.exits self.old.opened self.old.full
            self.new.exits self.new.opened self.new.full }
        ensures here { result ≡ has_span firsts.now table.now n (s / 2) j j }
    {
        let i = s / 2;
        let block = Block {
            first: firsts[i] as usize,
            n,
        };
        let row = block.read_row(table, j);
        join_row(&mut self.exits, &row, i, bits::test(&self.opened, s));
        bits::put_in_two(&mut self.opened, s);
        put_full(&self.exits, &mut self.full, s, j + 1, n);
        bits::test(&row, j)
    }
}
