// Day files: the reader that judges a file line by line and fills two lent buffers, letters and seconds.
#![tactic(auto)]

mod line;
mod passes;

ghost use Rattle.std.specs.Prelude.{◌≡◌};
ghost use Rattle.day.specs.DayAnswer.{day_values, refusal_verdict, outcome_verdict};
ghost use Rattle.day.specs.DayComputed.{day_answer};
ghost use Rattle.day.specs.DayMeaning.{DayMeaning};

use passes::{check_lines, fill};
use verdict::Verdict;

// 01: "over 2,550 bytes" is too long.
const MOST_BYTES: usize = 2550;

// Why a file is refused, with the line that is bad (`ManyLines` is always line 256).
#[derive(Clone, Copy, PartialEq, Eq)]
pub enum Refusal {
    LongFile,
    Malformed(usize),
    WrongSecond(usize),
    ManyLines,
    ShortBuffer,
}

// Number and place of each refusal.
impl From<Refusal> for Verdict {
    ghost from_gives = { λ refusal verdict. verdict ≡ refusal_verdict refusal };

    fn from(refusal: Refusal) -> Verdict {
        match refusal {
            Refusal::LongFile => Verdict::refusal(11, 0),
            Refusal::Malformed(line) => Verdict::refusal(12, line as u64),
            Refusal::WrongSecond(line) => Verdict::refusal(13, line as u64),
            Refusal::ManyLines => Verdict::refusal(14, 256),
            Refusal::ShortBuffer => Verdict::refusal(15, 0),
        }
    }
}

// Number, place, found and count of an answer.
pub fn outcome_verdict(outcome: Result<usize, Refusal>) -> Verdict
    ensures { result ≡ outcome_verdict outcome }
{
    match outcome {
        Ok(_) => Verdict::acceptance(0, 0),
        Err(refusal) => Verdict::from(refusal),
    }
}

// Reads a day file, and answers how many events it has: all lines are judged before anything is written. Two
// buffers, and none of events, as C lends them.
pub fn read(file: &[u8], letters: &mut [u8], seconds: &mut [u32]) -> Result<usize, Refusal>
    ensures value { day_values result letters.new seconds.new
        ≡ day_answer file.now letters.old seconds.old }
    ensures meaning { DayMeaning file.now letters.old seconds.old
        (day_values result letters.new seconds.new) }
{
    if MOST_BYTES < file.len() {
        return Err(Refusal::LongFile);
    }
    let n = check_lines(file)?;
    if letters.len() < n || seconds.len() < n {
        return Err(Refusal::ShortBuffer);
    }
    fill(file, n, letters, seconds);
    Ok(n)
}
