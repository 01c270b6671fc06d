// One number of used events: all that is reached there.
ghost use Rattle.std.specs.Prelude.{◌≡◌, ◌+◌, ◌≤◌, length};
ghost use Rattle.levels.specs.Sets.{Among};
ghost use Rattle.levels.specs.Exits.{to_come, Full};
ghost use Rattle.walk.specs.Course.{course_of, HasRoom};
ghost use Rattle.walk.specs.Caches.{Remembered};
ghost use Rattle.walk.specs.Walks.{LevelSet};

use crate::cache::{Cache, cached_closure};
use levels::States;
use levels::automaton::Automaton;
use levels::open::Open;
use marks::Marks;

// The states that are reached at number j: from those marked there, and from the exits that are due.
pub fn level(
    automaton: &Automaton,
    word: &[u8],
    table: &[u64],
    marks: &Marks,
    cache: &mut Cache,
    held: &mut Open,
    j: usize,
) -> States
    requires room { HasRoom automaton.now word.now table.now }
    requires j_bound { j ≤ length word.now }
    requires among { Among held.old.opened automaton.now.specials }
    requires full_2 { Full held.old.exits held.old.opened held.old.full j (length word.now) }
    requires remembered { Remembered automaton.now.closed cache.old }
    ensures states { LevelSet
        (course_of automaton.now word.now table.now) j marks.now.places
        (to_come held.old.exits held.old.opened) result (to_come held.new.exits held.new.opened) held.new.opened }
    ensures full { Full held.new.exits held.new.opened held.new.full (j + 1) (length word.now) }
    ensures cache { Remembered automaton.now.closed cache.new }
{
    let mut begun = held.due_exits(j);
    marks.add_to(j, &mut begun);
    let closure = cached_closure(automaton, &begun, cache, j);
    automaton.saturate(table, &closure, held, j, word.len())
}
