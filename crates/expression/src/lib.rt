// Regular expressions: the records of their nodes, the leaf at the front of a rule text, and the states of the scan over a rule text, whose
// theory stands here too.
#![tactic(auto)]

pub mod records;

ghost use Rattle.std.specs.Prelude.{◌≡◌};
ghost use Rattle.expression.specs.KindNumber.{kind_number};

use event::sets::LetterSet;

// What a node is: `0` is empty (no word), `1` is epsilon (the empty word), and a letter's kind carries a set of letters, any of which it fits.
#[derive(Clone, Copy, PartialEq, Eq)]
pub enum Kind {
    Empty,
    Epsilon,
    Letter(LetterSet),
    Union,
    Intersection,
    Concatenation,
    Complement,
    Star,
}

// A node record: the node's byte offset in the rule text, and its kind.
#[derive(Clone, Copy, PartialEq, Eq)]
pub struct Node {
    pub offset: usize,
    pub kind: Kind,
}

// The number of the set without letters, from which those of all sets count on; and how many sets there are.
const FIRST_SET: u64 = 9223372036854775808;

pub const SET_COUNT: u64 = 4503599627370496;

// The number of a kind: a set's is 2 to the power 63 and its bits.
impl From<Kind> for u64 {
    ghost from_gives = { λ kind number. number ≡ kind_number kind };

    fn from(kind: Kind) -> u64 {
        match kind {
            Kind::Empty => 0,
            Kind::Epsilon => 1,
            Kind::Union => 2,
            Kind::Intersection => 3,
            Kind::Concatenation => 4,
            Kind::Complement => 5,
            Kind::Star => 6,
            Kind::Letter(set) => FIRST_SET + set.bits % SET_COUNT,
        }
    }
}

// The leaf at the front of a text: how many bytes it has, and its kind.
#[derive(Clone, Copy, PartialEq, Eq)]
pub struct Leaf {
    pub width: usize,
    pub kind: Kind,
}

// Where a scan stands: an operand is expected, or has just ended; a bracket has just been opened, or has letters and may be closed.
#[derive(Clone, Copy, PartialEq, Eq)]
pub enum Stage {
    Operand,
    Ended,
    Opened,
    Letters,
}

// How far a scan has come: the open parentheses, where it stands, and the nodes and special nodes so far.
#[derive(Clone, Copy, PartialEq, Eq)]
pub struct ScanState {
    pub depth: usize,
    pub stage: Stage,
    pub nodes: usize,
    pub specials: usize,
}

// How many nodes a sentence has, and how many of them are special.
#[derive(Clone, Copy, PartialEq, Eq)]
pub struct Size {
    pub m: usize,
    pub k: usize,
}

// What the check of the order has noted of the bytes that have passed: none is open, a bracket has just been opened, or the letter that
// came last in it.
#[derive(Clone, Copy, PartialEq, Eq)]
pub enum Noted {
    Outside,
    Opened,
    Last(u8),
}
