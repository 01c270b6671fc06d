// The owners of a rule: each special node in its turn, inner ones first, and the whole rule last, fills its block of the span table.
#![tactic(auto)]

mod blocks;
mod sides;
mod turns;

ghost use Rattle.std.specs.Prelude.{length, is_none};
ghost use Rattle.marks.specs.Works.{count_of};
ghost use Rattle.owners.specs.Filling.{rule_of, Fillable, FilledTable};

use crate::blocks::first_numbers;
use crate::sides::left_sides;
use crate::turns::Owners;
use expression::records::Records;
use levels::automaton::Automaton;
use marks::counting::Work;

// Fills the blocks of the rule of the records: the whole rule's from number `whole` of the table on, and those of its
// special nodes, one after another, from number `special` on. Clears the table if that takes more than the limit.
pub fn fill(
    records: &Records,
    word: &[u8],
    limit: u64,
    table: &mut [u64],
    whole: usize,
    special: usize,
) -> Option<Work>
    requires { Fillable (rule_of records.now) records.now.nodes records.now.m word.now (length table.old) whole special }
    ensures { FilledTable (rule_of records.now) word.now limit whole special
        table.old table.new (count_of limit result) (is_none result) }
{
    let lefts = left_sides(records);
    // Filled where it stands: an automaton that a function hands out is copied on the way.
    let mut automaton = Automaton {
        closed: [0; 256],
        letters: [0; 512],
        specials: [0; 2],
        firsts: [0; 64],
    };
    moves::closed_moves(records, &lefts, &mut automaton.closed);
    moves::letter_entries(records, &mut automaton.letters);
    moves::special_entries(records, &mut automaton.specials);
    first_numbers(records, word.len(), special, &mut automaton.firsts);
    let owners = Owners {
        records,
        lefts: &lefts,
        automaton: &automaton,
        word,
    };
    let work = owners.fill_all(table, whole, limit);
    if work.is_none() {
        table.fill(0);
    }
    work
}
