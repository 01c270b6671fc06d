// The leaf at the front of a rule text.
ghost use Rattle.std.specs.Prelude.{◌≡◌, ◌≤◌, length, drop};
ghost use Rattle.event.specs.Event.{is_event};
ghost use Rattle.event.specs.Leading.{leading};
ghost use Rattle.event.specs.LetterSets.{letters_of};
ghost use Rattle.expression.specs.Leaves.{leaf, bracketed, leaf_at};

use event::is_event;
use event::sets::LetterSet;
use expression::{Kind, Leaf};

// How many letters stand at the front.
#[tactic(auto, unfolding(event::specs::Leading::leading))]
fn count_letters(s: &[u8]) -> usize
    ensures { result ≡ leading is_event s.now }
{
    s.iter().take_while(|b| is_event(**b)).count()
}

// The set of a text's letters.
fn gather(s: &[u8]) -> LetterSet
    ensures { result ≡ letters_of s.now }
{
    let mut set = LetterSet::none();
    for b in s {
        set = set.plus(*b);
    }
    set
}

// The set that the bracket at the front opens.
fn read_set(s: &[u8]) -> Leaf
    requires { (1 ≤ length s.now) × (length s.now ≤ 255) }
    ensures { result ≡ bracketed (drop 1 s.now) (leading is_event (drop 1 s.now)) }
{
    let end = count_letters(&s[1..]) + 1;
    let set = gather(&s[1..end]);
    if end < s.len() {
        return leaf(end + 1, Kind::Letter(set));
    }
    leaf(end, Kind::Letter(set))
}

// The leaf at the front of a text.
#[tactic(auto, unfolding(expression::specs::Leaves::leaf_at))]
pub fn read_leaf(s: &[u8]) -> Leaf
    requires { (1 ≤ length s.now) × (length s.now ≤ 255) }
    ensures { result ≡ leaf_at s.now }
{
    match s[0] {
        b'0' => leaf(1, Kind::Empty),
        b'1' => leaf(1, Kind::Epsilon),
        b'.' => leaf(1, Kind::Letter(LetterSet::every())),
        b'[' => read_set(s),
        b => leaf(1, Kind::Letter(LetterSet::single(b))),
    }
}

// A leaf of some bytes.
fn leaf(width: usize, kind: Kind) -> Leaf
    ensures { result ≡ leaf width kind }
{
    Leaf { width, kind }
}
