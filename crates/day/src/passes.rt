// The two passes over a day file: the first judges its lines, the second stores their events.
ghost use Rattle.std.specs.Prelude.{◌≡◌, map, ◌≤◌, length};
ghost use Rattle.std.proofs.lemmas.List.Edits.{sets};
ghost use Rattle.day.specs.DayFile.{letter_of, second_of};
ghost use Rattle.day.specs.DayLines.{checked, day_lines, events_of};

use crate::Refusal;
use crate::line::read_line;

// The last second of any day, that of a 25th hour, and how many lines a day has at most.
const LAST_SECOND: u32 = 89999;

const MOST_LINES: usize = 255;

// Judges the lines one after another, and counts them.
#[tactic(auto, using(crate::proofs::LineForm::line_within))]
pub fn check_lines(file: &[u8]) -> Result<usize, Refusal>
    ensures { result ≡ checked 0 (day_lines 255 0 file.now) }
{
    let mut rest = file;
    let mut n = 0;
    let mut last = 0;
    while !rest.is_empty() {
        if n == MOST_LINES {
            return Err(Refusal::ManyLines);
        }
        let Some(line) = read_line(rest) else {
            return Err(Refusal::Malformed(n + 1));
        };
        if LAST_SECOND < line.second || line.second < last {
            return Err(Refusal::WrongSecond(n + 1));
        }
        last = line.second;
        rest = &rest[line.size..];
        n += 1;
    }
    Ok(n)
}

// Stores the events of the first n lines, all of the form.
#[tactic(auto, using(crate::proofs::LineForm::line_within))]
pub fn fill(file: &[u8], n: usize, letters: &mut [u8], seconds: &mut [u32])
    requires { (n ≤ length letters.old) × (n ≤ length seconds.old) × (length (events_of n file.now) ≡ n) }
    ensures letters_after { letters.new ≡ sets letters.old 0 (map letter_of (events_of n file.now)) }
    ensures seconds_after { seconds.new ≡ sets seconds.old 0 (map second_of (events_of n file.now)) }
{
    let mut rest = file;
    for i in 0..n {
        let line = read_line(rest).unwrap();
        letters[i] = line.letter;
        seconds[i] = line.second;
        rest = &rest[line.size..];
    }
}
