// A start whose walk goes no further than its initial states.
ghost use Rattle.std.specs.Prelude.{◌≡◌, true, false, ◌&&◌, ◌↔◌, ℕ, ◌+◌, ◌*◌, ◌%◌, ◌<◌, ◌≤◌, length, eqb, is_none};
ghost use Rattle.bits.specs.Bit.{bit_at};
ghost use Rattle.bits.specs.Runs.{indicator};
ghost use Rattle.table.specs.Layout.{block_at, Lies};
ghost use Rattle.marks.specs.Rows.{met};
ghost use Rattle.marks.specs.Ends.{Initial, EndsThere, EndedRow};
ghost use Rattle.marks.specs.Works.{count_of, HasLimit};

use crate::Marks;
use crate::counting::Work;
use crate::target::Target;
use levels::States;
use levels::automaton::Automaton;
use table::Block;

// The states that free moves lead to from where the target's walks begin; they are the same for every start.
pub fn initial_states(automaton: &Automaton, target: Target) -> States
    ensures { Initial automaton.now.closed target result }
{
    let mut entries = [0u64; 2];
    bits::put_in_two(&mut entries, target.left.saturating_sub(1));
    bits::put_in_two(&mut entries, target.right.saturating_sub(1));
    automaton.closure(&entries)
}

// Tells that a walk that is at the states of a set at number i goes no further, and that its target is no complement.
pub fn ends_there(
    automaton: &Automaton,
    word: &[u8],
    set: &States,
    target: Target,
    i: usize,
) -> bool
    requires i_bound { i ≤ length word.now }
    ensures { (result ≡ true) ↔ ((target.complement ≡ false) × EndsThere
        automaton.now.letters automaton.now.specials word.now i set.now) }
{
    if target.complement || automaton.enters_special(set) {
        return false;
    }
    if i == word.len() {
        return true;
    }
    levels::is_empty(&automaton.next_states(set, word[i]))
}

// 1 where the state x is in the set, else 0.
#[tactic(auto, using(crate::proofs::RowLaws::in_low, crate::proofs::RowLaws::in_high))]
fn in_set(set: &States, x: usize) -> u64
    requires { x < 128 }
    ensures { result ≡ indicator (bit_at set.now x) }
{
    if x < 64 {
        return (set[0] >> x) % 2;
    }
    (set[1] >> (x - 64)) % 2
}

// The row of start i of a target that is no complement, after a walk that left no marks but at number i.
fn row_at_start(marks: &Marks, target: Target, i: usize) -> [u64; 4]
    requires { i < 256 }
    ensures { (k : ℕ) → k < 256 → bit_at result k ≡ (eqb k i && met marks.now.places target i) }
{
    let states = marks.states_at(i);
    let mut row = [0u64; 4];
    row[i / 64] = (in_set(&states, target.left) & in_set(&states, target.right)) << (i % 64);
    row
}

// Fills the row of a start i of a target that is no complement, where a walk goes no further than its initial states.
pub fn fill_ended(
    table: &mut [u64],
    initial: &States,
    target: Target,
    i: usize,
    n: usize,
    work: Work,
) -> Option<Work>
    requires lies { Lies (block_at target.first n) (length table.old) }
    requires i_le_n { i ≤ n }
    requires complement_value { target.complement ≡ false }
    ensures ended { EndedRow table.old initial.now target i n work.count work.limit table.new (count_of work.limit result) (is_none result) }
    ensures limit { HasLimit work.limit result }
{
    let mut marks = Marks::new();
    marks.store(initial, i);
    let work = work.add(marks.count_at(i))?;
    let row = row_at_start(&marks, target, i);
    let block = Block {
        first: target.first,
        n,
    };
    block.add_row(table, i, &row);
    Some(work)
}
