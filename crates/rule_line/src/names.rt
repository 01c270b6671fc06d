// Names in a rule file.
ghost use Rattle.std.specs.Prelude.{◌≡◌, ◌<◌, ◌≤◌, length, take, MatchOption};
ghost use Rattle.event.specs.Leading.{leading};
ghost use Rattle.replacement.specs.Replaced.{is_lower};
ghost use Rattle.replacement.specs.Pieces.{name_length};
ghost use Rattle.rule_line.specs.Coding.{find_line};

use crate::NamedLine;
use event::text::byte_at;

// The longest name.
const MOST_LETTERS: usize = 12;

// How many letters that a name may have stand at the front: lower case, whatever letters events have.
#[tactic(auto, unfolding(event::specs::Leading::leading, replacement::specs::Replaced::is_lower))]
fn count_lower(s: &[u8]) -> usize
    ensures { result ≡ leading is_lower s.now }
{
    s.iter().take_while(|b| b.is_ascii_lowercase()).count()
}

// The name at the front, if the byte `end` follows it.
pub fn read_name(s: &[u8], end: u8) -> Option<&[u8]>
    ensures { MatchOption result (name_length end s.now ≡ 0)
        (λ n. (0 < name_length end s.now) × (n.now ≡ take (name_length end s.now) s.now) × (length n.now ≡ name_length end s.now)) }
{
    let count = count_lower(s);
    if count == 0 || MOST_LETTERS < count || byte_at(s, count) != end {
        return None;
    }
    Some(&s[..count])
}

// The first of the lines that has a name.
pub fn find<R>(lines: &[NamedLine<R>], name: &[u8]) -> Option<usize>
    ensures { result ≡ find_line lines.now name.now }
{
    lines.iter().position(|line| line.name == name)
}
