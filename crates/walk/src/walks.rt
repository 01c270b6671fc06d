// One walk, number by number of used events.
ghost use Rattle.std.specs.Prelude.{◌≡◌, true, ℕ, ◌+◌, ◌/◌, ◌≤◌, length, is_none, IfSome};
ghost use Rattle.bits.specs.Bit.{bit_at};
ghost use Rattle.marks.specs.Marks.{EndsBefore};
ghost use Rattle.marks.specs.Works.{count_of, HasLimit};
ghost use Rattle.walk.specs.Course.{course_of, HasRoom};
ghost use Rattle.walk.specs.Caches.{Remembered};
ghost use Rattle.walk.specs.Walks.{work_of, Walked};

use crate::cache::Cache;
use crate::level::level;
use levels::automaton::Automaton;
use levels::open::Open;
use marks::Marks;
use marks::counting::Work;
use marks::steps::advance;

// The work after a walk, and a number from which on it marked nothing.
#[derive(Clone, Copy)]
pub struct WalkEnd {
    pub work: Work,
    pub end: usize,
}

// Marks each place that is reached from the marks, which stand at number i, and counts it, unless that passes the limit.
pub fn walk(
    automaton: &Automaton,
    word: &[u8],
    table: &[u64],
    marks: &mut Marks,
    cache: &mut Cache,
    held: &mut Open,
    i: usize,
    work: Work,
) -> Option<WalkEnd>
    requires room { HasRoom automaton.now word.now table.now }
    requires i_bound { i ≤ length word.now }
    requires by_index { (q : ℕ) → bit_at marks.old.places q ≡ true → q / 128 ≡ i }
    requires remembered { Remembered automaton.now.closed cache.old }
    ensures walked { Walked (course_of automaton.now word.now table.now)
        work.count work.limit marks.old.places marks.new.places (count_of work.limit (work_of result)) (is_none result) }
    ensures extent { IfSome result (λ e. (e.end ≤ length word.now + 1) × EndsBefore marks.new.places e.end) }
    ensures limit { HasLimit work.limit (work_of result) }
    ensures cache { Remembered automaton.now.closed cache.new }
{
    held.forget();
    let mut counted = work;
    let end = word.len() + 1;
    for j in i..end {
        if marks.is_finished(&held.opened, j) {
            return Some(WalkEnd {
                work: counted,
                end: j,
            });
        }
        let set = level(automaton, word, table, marks, cache, held, j);
        counted = advance(&automaton.letters, word, marks, &set, j, counted)?;
    }
    Some(WalkEnd { work: counted, end })
}
