// One line of a day file.
ghost use Rattle.std.specs.Prelude.{◌≡◌, ◌≤◌, length};
ghost use Rattle.decimal.specs.Numeral.{is_digit, value_of, AllDigits};
ghost use Rattle.day.specs.DayLines.{digit_count, is_second, line_of};

use event::is_event;
use event::text::byte_at;

// The line's tag and the bytes that part and end its fields.
const EVENT_TAG: u8 = b'E';

const TAB: u8 = b'\t';

const NEWLINE: u8 = b'\n';

// A line of the form: its second, its letter, and how many bytes it has.
#[derive(Clone, Copy)]
pub struct Line {
    pub second: u32,
    pub letter: u8,
    pub size: usize,
}

fn is_digit(b: u8) -> bool
    ensures { result ≡ is_digit b }
{
    b'0' <= b && b <= b'9'
}

// How many digits stand at the front.
#[tactic(auto, unfolding(event::specs::Leading::leading))]
fn count_digits(s: &[u8]) -> usize
    ensures { result ≡ digit_count s.now }
{
    s.iter().take_while(|b| is_digit(**b)).count()
}

// Whether so many digits, of which this is the first, can be a second.
fn is_second(count: usize, first: u8) -> bool
    ensures { result ≡ is_second count first }
{
    count == 1 || (first != b'0' && 1 <= count && count <= 5)
}

// The number that a few digits write.
fn value_of(digits: &[u8]) -> u32
    requires { (length digits.now ≤ 5) × AllDigits digits.now }
    ensures { result ≡ value_of digits.now }
{
    let mut x: u32 = 0;
    for digit in digits {
        x = x * 10 + u32::from(*digit - b'0');
    }
    x
}

// Reads the line at the front of the unread text, if one of the form stands there.
pub fn read_line(s: &[u8]) -> Option<Line>
    ensures { result ≡ line_of s.now }
{
    if byte_at(s, 0) != EVENT_TAG {
        return None;
    }
    if byte_at(s, 1) != TAB {
        return None;
    }
    let count = count_digits(&s[2..]);
    if !is_second(count, byte_at(s, 2)) {
        return None;
    }
    let end = count + 2;
    if byte_at(s, end) != TAB {
        return None;
    }
    let letter = byte_at(s, end + 1);
    if !is_event(letter) {
        return None;
    }
    if byte_at(s, end + 2) != NEWLINE {
        return None;
    }
    Some(Line {
        second: value_of(&s[2..end]),
        letter,
        size: end + 3,
    })
}
