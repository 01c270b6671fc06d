// The judge on a rule file: which spans of a word obey the rule of the file's last line.
ghost use Rattle.std.specs.Prelude.{◌≡◌, ◌+◌, ◌*◌, ◌≤◌, length};
ghost use Rattle.rule_file.specs.FileComputed.{file_answer};
ghost use Rattle.judge.specs.declared.Refusal.TheVariants.{Reading};
ghost use Rattle.judge.specs.JudgeFileAnswer.{judge_file_values};
ghost use Rattle.judge.specs.JudgeFileComputed.{judge_file_answer, last_line};
ghost use Rattle.judge.specs.JudgeFileMeaning.{JudgeFileMeaning};

use crate::Refusal;
use rule_file::LineRefusal;
use verdict::Judged;

impl From<LineRefusal> for Refusal<LineRefusal> {
    ghost from_gives = { λ reading refusal. refusal ≡ Reading reading };

    fn from(refusal: LineRefusal) -> Refusal<LineRefusal> {
        Refusal::Reading(refusal)
    }
}

// Judges every span of the word by the last line of a rule file, and fills the table.
pub fn judge_file(
    file: &[u8],
    word: &[u8],
    limit: u64,
    table: &mut [u64],
) -> Result<Judged, Refusal<LineRefusal>>
    ensures value { judge_file_values result table.new
        ≡ judge_file_answer file.now word.now limit table.old }
    ensures meaning { JudgeFileMeaning file.now word.now limit table.old
        (judge_file_values result table.new) }
    ensures bound { (judge_file_values result table.new).count
        ≤ (last_line (file_answer file.now)).m * (length word.now + 1) * (length word.now + 2) }
{
    let read = rule_file::read(file)?;
    let last = read.last();
    let judged = matcher::match_spans(last, word, limit, table)?;
    Ok(judged)
}
