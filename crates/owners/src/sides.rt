// The left or only side of each node, found from the records.
ghost use Rattle.std.specs.Prelude.{◌≡◌};
ghost use Rattle.owners.specs.Filling.{rule_of, Recorded};
ghost use Rattle.owners.specs.Sides.{sides_of, SidesKnown, SidesFound, Lefts};

use expression::Kind;
use expression::records::Records;

// How many sides a node of this kind has.
fn sides_of(kind: Kind) -> usize
    ensures { result ≡ sides_of kind }
{
    match kind {
        Kind::Empty | Kind::Epsilon | Kind::Letter(_) => 0,
        Kind::Complement | Kind::Star => 1,
        Kind::Union | Kind::Intersection | Kind::Concatenation => 2,
    }
}

// Where a part's records begin, and its left or only side, 0 where it has none: a number, as only a node that has one
// is asked for it.
#[derive(Clone, Copy)]
pub struct Extent {
    pub begin: usize,
    pub left: usize,
}

// The extent of node i's part, from where those of the nodes before it begin.
fn extent_of(begins: &[usize; 64], sides: usize, i: usize) -> Extent
    requires { SidesKnown begins.now sides i }
    ensures { SidesFound begins.now sides i result.begin result.left }
{
    match sides {
        1 => Extent {
            begin: begins[i - 1],
            left: i - 1,
        },
        2 => {
            let right = begins[i - 1];
            Extent {
                begin: begins[right - 1],
                left: right - 1,
            }
        }
        _ => Extent { begin: i, left: 0 },
    }
}

// The left or only side of each node.
pub fn left_sides(records: &Records) -> [usize; 64]
    requires { Recorded (rule_of records.now) records.now.nodes records.now.m }
    ensures { Lefts (rule_of records.now) result }
{
    let mut begins = [0usize; 64];
    let mut lefts = [0usize; 64];
    for i in 0..records.m {
        let extent = extent_of(&begins, sides_of(records.nodes[i].kind), i);
        begins[i] = extent.begin;
        lefts[i] = extent.left;
    }
    lefts
}
