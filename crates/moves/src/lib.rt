// The free moves of a rule's states, closed, and the entries of its letters and of its special nodes, as bits.
#![tactic(auto)]

mod closure;
mod entries;
mod free;

ghost use Rattle.std.specs.Prelude.{◌≡◌, ◌≤◌, length, replicate};
ghost use Rattle.bits.specs.Runs.{Adds};
ghost use Rattle.moves.specs.Moves.{special_kind, SidesBefore, ClosedMoves, LetterEntry, SpecialEntry};

use closure::close;
use entries::add_letter;
use expression::Kind;
use expression::records::Records;
use free::add_moves;

// Whether a walk passes a node of this kind by the span table alone.
pub fn is_special(kind: Kind) -> bool
    ensures { result ≡ special_kind kind }
{
    matches!(kind, Kind::Intersection | Kind::Complement)
}

// Fills a cleared run with where free moves lead, for a rule whose first sides are in lefts: bit 128 * s + t if they lead
// from state s to state t.
pub fn closed_moves(records: &Records, lefts: &[usize; 64], moves: &mut [u64; 256])
    requires cleared { moves.old ≡ replicate 256 0 }
    requires sides_before { SidesBefore records.now.nodes lefts.now records.now.m }
    ensures { ClosedMoves records.now.nodes lefts.now records.now.m moves.new }
{
    add_moves(records, lefts, moves);
    close(moves, 2 * records.m);
}

// Adds the entries of each letter's nodes: bit 128 * c + s for the entry s of a node whose set has the letter c.
pub fn letter_entries(records: &Records, entries: &mut [u64; 512])
    ensures { Adds entries.old (LetterEntry records.now.nodes records.now.m) entries.new }
{
    for i in 0..records.m {
        add_letter(entries, records.nodes[i].kind, i);
    }
}

// Adds the entries of the special nodes: bit s for the entry s of one.
pub fn special_entries(records: &Records, entries: &mut [u64; 2])
    ensures { Adds entries.old (SpecialEntry records.now.nodes records.now.m) entries.new }
{
    for i in 0..records.m {
        if is_special(records.nodes[i].kind) {
            bits::put_in_two(entries, 2 * i);
        }
    }
}
