// The judge: which spans of a word obey a rule, in a lent table, within a lent limit of work.
#![tactic(auto)]

pub mod file;

ghost use Rattle.std.specs.Prelude.{◌≡◌, ◌+◌, ◌*◌, ◌≤◌, length};
ghost use Rattle.rule.specs.RuleComputed.{rule_answer};
ghost use Rattle.judge.specs.declared.Refusal.TheVariants.{Reading, Matching};
ghost use Rattle.judge.specs.JudgeAnswer.{TellsRefusal, judge_values};
ghost use Rattle.judge.specs.JudgeComputed.{judge_answer};
ghost use Rattle.judge.specs.JudgeMeaning.{JudgeMeaning};

use verdict::{Judged, Verdict};

// Why nothing is judged: what a reader refuses the rule for, or what the matcher refuses the word, the table or the limit for.
#[derive(Clone, Copy, PartialEq, Eq)]
pub enum Refusal<R> {
    Reading(R),
    Matching(matcher::Refusal),
}

// Number, place and count of each refusal.
impl<R: Into<Verdict>> From<Refusal<R>> for Verdict {
    ghost from_gives = { λ refusal verdict. TellsRefusal R.converts refusal verdict };

    fn from(refusal: Refusal<R>) -> Verdict {
        match refusal {
            Refusal::Reading(reading) => reading.into(),
            Refusal::Matching(matching) => matching.into(),
        }
    }
}

impl From<rule::Refusal> for Refusal<rule::Refusal> {
    ghost from_gives = { λ reading refusal. refusal ≡ Reading reading };

    fn from(refusal: rule::Refusal) -> Refusal<rule::Refusal> {
        Refusal::Reading(refusal)
    }
}

impl<R> From<matcher::Refusal> for Refusal<R> {
    ghost from_gives = { λ matching refusal. refusal ≡ Matching matching };

    fn from(refusal: matcher::Refusal) -> Refusal<R> {
        Refusal::Matching(refusal)
    }
}

// Judges every span of the word by the rule, and fills the table.
pub fn judge(
    rule: &[u8],
    word: &[u8],
    limit: u64,
    table: &mut [u64],
) -> Result<Judged, Refusal<rule::Refusal>>
    ensures value { judge_values result table.new
        ≡ judge_answer rule.now word.now limit table.old }
    ensures meaning { JudgeMeaning rule.now word.now limit table.old
        (judge_values result table.new) }
    ensures bound { (judge_values result table.new).count
        ≤ (rule_answer rule.now).m * (length word.now + 1) * (length word.now + 2) }
{
    let records = rule::read(rule)?;
    let judged = matcher::match_spans(&records, word, limit, table)?;
    Ok(judged)
}
