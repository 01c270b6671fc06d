// The order of the letters inside brackets.
ghost use Rattle.std.specs.Prelude.{◌≡◌};
ghost use Rattle.event.specs.Leading.{place_in};
ghost use Rattle.expression.specs.OrderComputed.{noted, falls, unordered_at};

use event::is_event;
use expression::Noted;

// Whether a byte is a letter inside brackets that is not above the one before it.
fn falls(before: Noted, b: u8) -> bool
    ensures { result ≡ falls before b }
{
    match before {
        Noted::Last(letter) => b <= letter && is_event(b),
        Noted::Outside | Noted::Opened => false,
    }
}

// What is noted with one byte more.
fn note(before: Noted, b: u8) -> Noted
    ensures { result ≡ noted before b }
{
    match b {
        b'[' => Noted::Opened,
        _ if before != Noted::Outside && is_event(b) => Noted::Last(b),
        _ => Noted::Outside,
    }
}

// The offset of the first letter inside brackets that is not above the one before it, if there is one.
pub fn find_unordered(text: &[u8]) -> Option<usize>
    ensures { result ≡ place_in text.now (unordered_at text.now) }
{
    let mut before = Noted::Outside;
    for (i, b) in text.iter().enumerate() {
        if falls(before, *b) {
            return Some(i);
        }
        before = note(before, *b);
    }
    None
}
