// One number of used events: its places marked and counted, and the next event read.
ghost use Rattle.std.specs.Prelude.{◌≡◌, true, ℕ, ◌+◌, ◌*◌, ◌%◌, ◌≤◌, ◌<◌, length, is_none};
ghost use Rattle.bits.specs.Bit.{bit_at};
ghost use Rattle.bits.specs.Runs.{Adds};
ghost use Rattle.levels.specs.Sets.{LetterEntries};
ghost use Rattle.marks.specs.Marks.{MarkedIn};
ghost use Rattle.marks.specs.Steps.{NextExit, Advanced};
ghost use Rattle.marks.specs.Works.{count_of, HasLimit};

use crate::Marks;
use crate::counting::Work;
use levels::States;

// Reads event j of the word, if there is one: marks the exits of the nodes that fit it at the number after j.
fn read_next(letters: &[u64; 512], word: &[u8], marks: &mut Marks, set: &States, j: usize)
    requires j_in_bounds { (j ≤ length word.now) × (length word.now ≤ 255) }
    requires letter { LetterEntries letters.now }
    ensures { Adds marks.old.places (NextExit letters.now word.now set.now j) marks.new.places }
{
    if j < word.len() {
        let next = levels::next_states(letters, set, word[j]);
        marks.mark(&next, j + 1);
    }
}

// Marks the states of the set, which has all that are marked there, at number j, counts what is marked there, and reads the next event, unless
// the limit is passed.
pub fn advance(
    letters: &[u64; 512],
    word: &[u8],
    marks: &mut Marks,
    set: &States,
    j: usize,
    work: Work,
) -> Option<Work>
    requires j_in_bounds { (j ≤ length word.now) × (length word.now ≤ 255) }
    requires marked_in { MarkedIn marks.old.places set.now j }
    requires letter { LetterEntries letters.now }
    ensures advanced { Advanced
        letters.now word.now set.now j work.count work.limit
        marks.old.places marks.new.places (count_of work.limit result) (is_none result) }
    ensures limit { HasLimit work.limit result }
{
    marks.store(set, j);
    let work = work.add(marks.count_at(j))?;
    read_next(letters, word, marks, set, j);
    Some(work)
}
