// The block of an owner: its walks from every start, the rows of its block, and the count of the places that they visit.
#![tactic(auto)]

mod cache;
mod level;
mod starts;
mod walks;

ghost use Rattle.std.specs.Prelude.{◌≡◌, ◌<◌, ◌≤◌, length, is_none};
ghost use Rattle.marks.specs.Works.{count_of, HasLimit};
ghost use Rattle.table.specs.Layout.{Lies};
ghost use Rattle.walk.specs.Course.{course_of, HasRoom};
ghost use Rattle.walk.specs.Filled.{block_of, Apart, Filled};

use crate::cache::empty_cache;
use crate::starts::fill_start;
use levels::automaton::Automaton;
use levels::open::Open;
use marks::counting::Work;
use marks::ends::initial_states;
use marks::target::Target;
use table::Block;

// Walks from each start, and fills the target's block. Automaton, word and table are no struct: the table changes while the other two are read,
// and what is asked of the three is of all together.
pub fn fill_block(
    automaton: &Automaton,
    word: &[u8],
    table: &mut [u64],
    target: Target,
    work: Work,
) -> Option<Work>
    requires room { HasRoom automaton.now word.now table.old }
    requires lies { Lies (block_of (course_of automaton.now word.now table.old) target) (length table.old) }
    requires apart { Apart (course_of automaton.now word.now table.old) target }
    ensures filled { Filled (course_of automaton.now word.now table.old)
        target work.count work.limit table.new (count_of work.limit result) (is_none result) }
    ensures limit { HasLimit work.limit result }
{
    let block = Block {
        first: target.first,
        n: word.len(),
    };
    block.clear(table);
    let initial = initial_states(automaton, target);
    let mut cache = empty_cache();
    let mut held = Open::new();
    let mut counted = work;
    for i in 0..=word.len() {
        counted = fill_start(
            automaton, word, table, &mut cache, &mut held, &initial, target, i, counted,
        )?;
    }
    Some(counted)
}
