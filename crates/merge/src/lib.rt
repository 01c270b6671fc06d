// Merging: the day files of a door's two readers become one day, in two lent buffers, letters and seconds.
// What is the first file's has a 1 behind its name (letters1, seconds1), what is the second file's a 2.
#![tactic(auto)]

mod events;

ghost use Rattle.std.specs.Prelude.{◌≡◌, IfOk, IfErr};
ghost use Rattle.day.specs.DayLines.{events};
ghost use Rattle.day.specs.DayComputed.{day_events};
ghost use Rattle.merge.specs.MergeAnswer.{refusal_verdict, outcome_verdict, merge_values};
ghost use Rattle.merge.specs.MergeComputed.{after_both, merge_answer, paired, IsRefused};
ghost use Rattle.merge.specs.MergeMeaning.{MergeMeaning};
ghost use Rattle.merge.specs.declared.Refusal.TheVariants as why;

use events::{Day, fill};
use verdict::Verdict;

// How many events a day has at most.
const MOST_EVENTS: usize = 255;

// Why two files are refused: as the day reader refuses one of them, or for the buffers; or for too many events together.
#[derive(Clone, Copy, PartialEq, Eq)]
pub enum Refusal {
    Day(day::Refusal),
    ManyEvents,
}

impl From<day::Refusal> for Refusal {
    ghost from_gives = { λ refusal reason. reason ≡ why.Day refusal };

    fn from(refusal: day::Refusal) -> Refusal {
        Refusal::Day(refusal)
    }
}

// Number and place of each refusal.
impl From<Refusal> for Verdict {
    ghost from_gives = { λ refusal verdict. verdict ≡ refusal_verdict refusal };

    fn from(refusal: Refusal) -> Verdict {
        match refusal {
            Refusal::Day(reason) => Verdict::from(reason),
            Refusal::ManyEvents => Verdict::refusal(22, 0),
        }
    }
}

// Number, place, found and count of an answer.
pub fn outcome_verdict(outcome: Result<usize, Refusal>) -> Verdict
    ensures { result ≡ outcome_verdict outcome }
{
    match outcome {
        Ok(_) => Verdict::acceptance(0, 0),
        Err(refusal) => Verdict::from(refusal),
    }
}

// Merges two day files by rising second, the first file's events first at equal seconds, and answers how many events they have together: all is
// judged before anything is written.
pub fn merge(
    first: &[u8],
    second: &[u8],
    letters: &mut [u8],
    seconds: &mut [u32],
) -> Result<usize, Refusal>
    ensures value { merge_values result letters.new seconds.new
        ≡ merge_answer first.now second.now letters.old seconds.old }
    ensures meaning { MergeMeaning first.now second.now letters.old seconds.old
        (merge_values result letters.new seconds.new) }
{
    let mut letters1 = [0u8; MOST_EVENTS];
    let mut seconds1 = [0u32; MOST_EVENTS];
    let day1 = read_day(first, &mut letters1, &mut seconds1)?;
    let mut letters2 = [0u8; MOST_EVENTS];
    let mut seconds2 = [0u32; MOST_EVENTS];
    let day2 = read_day(second, &mut letters2, &mut seconds2)?;
    merge_events(day1, day2, letters, seconds)
}

// Reads one of the files into buffers that have room for every day.
fn read_day<'a>(
    file: &[u8],
    letters: &'a mut [u8; MOST_EVENTS],
    seconds: &'a mut [u32; MOST_EVENTS],
) -> Result<Day<'a>, day::Refusal>
    ensures ok { IfOk result (λ d. day_events file.now ≡ events (paired d.letters.now d.seconds.now)) }
    ensures err { IfErr result (λ r. IsRefused file.now r) }
{
    let n = day::read(file, letters, seconds)?;
    Ok(Day {
        letters: &letters[..n],
        seconds: &seconds[..n],
    })
}

// Writes the events of both, if they are few enough and the buffers long enough.
fn merge_events(
    first: Day,
    second: Day,
    letters: &mut [u8],
    seconds: &mut [u32],
) -> Result<usize, Refusal>
    ensures { merge_values result letters.new seconds.new
        ≡ after_both (paired first.entry.letters.now first.entry.seconds.now) (paired second.entry.letters.now second.entry.seconds.now)
        letters.old seconds.old }
{
    let n = first.letters.len() + second.letters.len();
    if MOST_EVENTS < n {
        return Err(Refusal::ManyEvents);
    }
    if letters.len() < n || seconds.len() < n {
        return Err(Refusal::Day(day::Refusal::ShortBuffer));
    }
    fill(first, second, letters, seconds);
    Ok(n)
}
