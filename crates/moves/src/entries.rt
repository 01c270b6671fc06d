// The entries of one node: its bit among those of each of its letters, and its bit among the special nodes'.
ghost use Rattle.std.specs.Prelude.{◌≡◌, ◌<◌, length};
ghost use Rattle.bits.specs.Runs.{Adds};
ghost use Rattle.event.specs.LetterSets.{every};
ghost use Rattle.expression.specs.declared.Kind.TheVariants.{Letter};
ghost use Rattle.moves.specs.Moves.{KindLetter, KindSpecial};

use crate::is_special;
use event::sets::{EVERY, LetterSet};
use expression::Kind;

// Adds the entry of node i to those of each letter of a set.
fn add_set(entries: &mut [u64; 512], set: LetterSet, i: usize)
    requires { i < 64 }
    ensures { Adds entries.old (KindLetter (Letter set) i) entries.new }
{
    let mut from = 0;
    while let Some(index) = event::sets::next_index(set, from) {
        // Bits from 52 on stand for no letter.
        if 52 <= index {
            return;
        }
        let letter = event::sets::letter_at(index);
        bits::put(entries, 128 * (letter as usize) + 2 * i);
        from = index + 1;
    }
}

// Adds the entry of node i to those of all letters, as `add_set` does for the set of all; but no index waits for the one before.
fn add_every(entries: &mut [u64; 512], i: usize)
    requires { i < 64 }
    ensures { Adds entries.old (KindLetter (Letter every) i) entries.new }
{
    for index in 0..52 {
        let letter = event::sets::letter_at(index);
        bits::put(entries, 128 * (letter as usize) + 2 * i);
    }
}

// Adds the entry of node i to those of its letters, if it has any.
pub fn add_letter(entries: &mut [u64; 512], kind: Kind, i: usize)
    requires { i < 64 }
    ensures { Adds entries.old (KindLetter kind i) entries.new }
{
    if let Kind::Letter(set) = kind {
        if set.bits == EVERY {
            add_every(entries, i);
        } else {
            add_set(entries, set, i);
        }
    }
}
