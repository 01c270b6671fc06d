// Jobs: a rule and a day, judged, and the text that lists the spans that obey.
#![tactic(auto)]

mod first_line;

ghost use Rattle.std.specs.Prelude.{◌≡◌, ◌≤◌, length, replicate};
ghost use Rattle.rule.specs.RuleComputed.{rule_answer};
ghost use Rattle.day.specs.DayComputed.{day_answer};
ghost use Rattle.table.specs.Layout.{block_at, Lies};
ghost use Rattle.judge.specs.JudgeComputed.{judge_answer};
ghost use Rattle.job.specs.declared.Refusal.TheVariants.{Rule, Day, Judge};
ghost use Rattle.job.specs.JobAnswer.{job_values, refusal_verdict};
ghost use Rattle.job.specs.JobComputed.{job_answer, written, listed, limit_of, after_rule, after_day, after_judge};
ghost use Rattle.job.specs.JobMeaning.{JobMeaning};

use expression::records::Records;
use listing::Heading;
use verdict::Verdict;

// The numbers of a table that is long enough for every job.
const TABLE_NUMBERS: usize = 8192;

// What an accepted job comes to; n is the length of the text.
#[derive(Clone, Copy, PartialEq, Eq)]
pub struct Accepted {
    pub found: u64,
    pub count: u64,
    pub n: usize,
}

// Why a job is refused: it has no line of a rule, a row that it passes refuses, or the buffer is too short for the text.
#[derive(Clone, Copy, PartialEq, Eq)]
pub enum Refusal {
    NoRuleLine,
    Rule(rule::Refusal),
    Day(day::Refusal),
    Judge(judge::Refusal<rule::Refusal>),
    ShortBuffer,
}

// Number and place of each refusal; found and count are always 0.
impl From<Refusal> for Verdict {
    ghost from_gives = { λ refusal verdict. verdict ≡ refusal_verdict refusal };

    fn from(refusal: Refusal) -> Verdict {
        let told = match refusal {
            Refusal::NoRuleLine => Verdict::refusal(16, 0),
            Refusal::Rule(refusal) => Verdict::from(refusal),
            Refusal::Day(refusal) => Verdict::from(refusal),
            Refusal::Judge(refusal) => Verdict::from(refusal),
            Refusal::ShortBuffer => Verdict::refusal(15, 0),
        };
        Verdict::refusal(told.number, told.place)
    }
}

impl From<rule::Refusal> for Refusal {
    ghost from_gives = { λ reading refusal. refusal ≡ Rule reading };

    fn from(refusal: rule::Refusal) -> Refusal {
        Refusal::Rule(refusal)
    }
}

impl From<day::Refusal> for Refusal {
    ghost from_gives = { λ reading refusal. refusal ≡ Day reading };

    fn from(refusal: day::Refusal) -> Refusal {
        Refusal::Day(refusal)
    }
}

impl From<judge::Refusal<rule::Refusal>> for Refusal {
    ghost from_gives = { λ judging refusal. refusal ≡ Judge judging };

    fn from(refusal: judge::Refusal<rule::Refusal>) -> Refusal {
        Refusal::Judge(refusal)
    }
}

// Runs a job, and writes its text to the front of a buffer.
pub fn run(job: &[u8], out: &mut [u8]) -> Result<Accepted, Refusal>
    ensures value { job_values result out.new ≡ job_answer job.now out.old }
    ensures meaning { JobMeaning job.now out.old (job_values result out.new) }
{
    match first_line::part(job) {
        Some(parts) => run_rule(parts.rule, parts.day, out),
        None => Err(Refusal::NoRuleLine),
    }
}

// Reads the rule, and goes on to the day.
fn run_rule(rule: &[u8], file: &[u8], out: &mut [u8]) -> Result<Accepted, Refusal>
    ensures { job_values result out.new
        ≡ written (after_rule rule.now file.now (rule_answer rule.now)) out.old }
{
    let records = rule::read(rule)?;
    run_day(rule, &records, file, out)
}

// Reads the day, and goes on to the judge.
fn run_day(rule: &[u8], records: &Records, file: &[u8], out: &mut [u8]) -> Result<Accepted, Refusal>
    ensures { job_values result out.new
        ≡ written (after_day rule.now records.now.m records.now.k (day_answer file.now (replicate 255 0) (replicate 255 0)))
        out.old }
{
    let mut letters = [0u8; 255];
    let mut seconds = [0u32; 255];
    let n = day::read(file, &mut letters, &mut seconds)?;
    run_judge(rule, records, &letters[..n], out)
}

// Judges the day, and lists the spans that obey.
fn run_judge(
    rule: &[u8],
    records: &Records,
    word: &[u8],
    out: &mut [u8],
) -> Result<Accepted, Refusal>
    requires { length word.now ≤ 255 }
    ensures { job_values result out.new
        ≡ written (after_judge
        (judge_answer rule.now word.now (limit_of records.now.m (length word.now)) (replicate 8192 0))
        (length word.now) records.now.m records.now.k) out.old }
{
    let n = word.len();
    let m = records.m;
    let limit = (m * ((n + 1) * (n + 2))) as u64;
    let mut table = [0u64; TABLE_NUMBERS];
    let judged = judge::judge(rule, word, limit, &mut table)?;
    let heading = Heading {
        n: n as u64,
        m: m as u64,
        k: records.k as u64,
        found: judged.found,
        count: judged.count,
    };
    list(heading, &table[..table::block_length(n)], out)
}

// Writes the listing of a block, if the buffer is long enough.
fn list(heading: Heading, block: &[u64], out: &mut [u8]) -> Result<Accepted, Refusal>
    requires { Lies (block_at 0 heading.n) (length block.now) }
    ensures { job_values result out.new ≡ written (listed heading block.now) out.old }
{
    let n = listing::text_length(heading, block);
    if out.len() < n {
        return Err(Refusal::ShortBuffer);
    }
    listing::write(heading, block, out);
    Ok(Accepted {
        found: heading.found,
        count: heading.count,
        n,
    })
}
