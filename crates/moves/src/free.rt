// The free moves of a rule's states: bit 128 * s + t for a move from state s to state t.
ghost use Rattle.std.specs.Prelude.{◌≡◌, ◌+◌, ◌*◌, ◌<◌, ◌≤◌, length};
ghost use Rattle.bits.specs.Runs.{Put, Adds};
ghost use Rattle.moves.specs.Moves.{NotFirst, SidesBefore, KindMove, RecordMove, SidedMove};

use expression::Kind;
use expression::records::Records;

// Adds the move from state s to state t.
fn link(moves: &mut [u64; 256], s: usize, t: usize)
    requires { (s < 128) × (t < 128) }
    ensures { Put moves.old (128 * s + t) moves.new }
{
    bits::put(moves, 128 * s + t);
}

// Adds the free moves of a node with sides, whose entry is e: from it to x and to y, from the exit f of a side to z, and from the exit of its
// last side to its own.
fn sided_moves(moves: &mut [u64; 256], e: usize, x: usize, y: usize, f: usize, z: usize)
    requires { (0 < e) × (e < 127) × (x < 128) × (y < 128) × (f < 128) × (z < 128) }
    ensures { Adds moves.old (SidedMove e x y f z) moves.new }
{
    link(moves, e, x);
    link(moves, e, y);
    link(moves, f, z);
    link(moves, e - 1, e + 1);
}

// Adds the free moves that node i brings; its first side, where it has two, is node l, and its last side is the node before it.
// An intersection and a complement bring none: a walk passes them by the span table alone.
fn node_moves(moves: &mut [u64; 256], kind: Kind, i: usize, l: usize)
    requires { (i < 64) × (l ≤ i) × NotFirst kind i }
    ensures { Adds moves.old (KindMove kind i l) moves.new }
{
    let e = 2 * i;
    let d = 2 * l;
    match kind {
        Kind::Epsilon => {
            link(moves, e, e + 1);
        }
        Kind::Union => {
            // Into both sides, and out of them.
            sided_moves(moves, e, d, e - 2, d + 1, e + 1);
        }
        Kind::Concatenation => {
            // Into the first side, on to the last, and out of that.
            sided_moves(moves, e, d, d, d + 1, e - 2);
        }
        Kind::Star => {
            // Into its side, past it, around it and out of it.
            sided_moves(moves, e, e - 2, e + 1, e - 1, e - 2);
        }
        _ => {}
    }
}

// Adds the free moves of a rule whose first sides are in lefts.
pub fn add_moves(records: &Records, lefts: &[usize; 64], moves: &mut [u64; 256])
    requires { SidesBefore records.now.nodes lefts.now records.now.m }
    ensures { Adds moves.old (RecordMove records.now.nodes lefts.now records.now.m) moves.new }
{
    for i in 0..records.m {
        node_moves(moves, records.nodes[i].kind, i, lefts[i]);
    }
}
