// The row of one start.
ghost use Rattle.std.specs.Prelude.{◌≡◌, ◌<◌, ◌≤◌, length, is_none};
ghost use Rattle.table.specs.Layout.{Lies};
ghost use Rattle.marks.specs.Ends.{Initial};
ghost use Rattle.marks.specs.Works.{count_of, HasLimit};
ghost use Rattle.walk.specs.Course.{course_of, HasRoom};
ghost use Rattle.walk.specs.Caches.{Remembered};
ghost use Rattle.walk.specs.Filled.{block_of};
ghost use Rattle.walk.specs.Starts.{Started};

use crate::cache::Cache;
use crate::walks::walk;
use levels::States;
use levels::automaton::Automaton;
use levels::open::Open;
use marks::Marks;
use marks::counting::Work;
use marks::ends::{ends_there, fill_ended};
use marks::target::Target;
use table::Block;

// Walks from start i with clear marks, and adds its row to the target's block.
fn fill_walked(
    automaton: &Automaton,
    word: &[u8],
    table: &mut [u64],
    cache: &mut Cache,
    held: &mut Open,
    target: Target,
    i: usize,
    work: Work,
) -> Option<Work>
    requires room { HasRoom automaton.now word.now table.old }
    requires lies { Lies (block_of (course_of automaton.now word.now table.old) target) (length table.old) }
    requires i_bound { i ≤ length word.now }
    requires remembered { Remembered automaton.now.closed cache.old }
    ensures started { Started (course_of automaton.now word.now table.old)
        target i work.count work.limit table.new (count_of work.limit result) (is_none result) }
    ensures limit { HasLimit work.limit result }
    ensures cache { Remembered automaton.now.closed cache.new }
{
    let mut marks = Marks::new();
    marks.mark_start(target, i);
    let walked = walk(automaton, word, table, &mut marks, cache, held, i, work)?;
    let row = marks.row_of(target, i, walked.end, word.len());
    let block = Block {
        first: target.first,
        n: word.len(),
    };
    block.add_row(table, i, &row);
    Some(walked.work)
}

// Fills the row of start i: by a walk, or, where that would go no further than the initial states, from these alone.
pub fn fill_start(
    automaton: &Automaton,
    word: &[u8],
    table: &mut [u64],
    cache: &mut Cache,
    held: &mut Open,
    initial: &States,
    target: Target,
    i: usize,
    work: Work,
) -> Option<Work>
    requires room { HasRoom automaton.now word.now table.old }
    requires lies { Lies (block_of (course_of automaton.now word.now table.old) target) (length table.old) }
    requires i_bound { i ≤ length word.now }
    requires remembered { Remembered automaton.now.closed cache.old }
    requires initial { Initial automaton.now.closed target initial.now }
    ensures started { Started (course_of automaton.now word.now table.old)
        target i work.count work.limit table.new (count_of work.limit result) (is_none result) }
    ensures limit { HasLimit work.limit result }
    ensures cache { Remembered automaton.now.closed cache.new }
{
    if ends_there(automaton, word, initial, target, i) {
        return fill_ended(table, initial, target, i, word.len(), work);
    }
    fill_walked(automaton, word, table, cache, held, target, i, work)
}
