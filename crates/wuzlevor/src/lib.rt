// The C interface, include/wuzlevor.h: each call leaves in its buffers what the library's call leaves, writes the answer as numbers, and
// returns its number.
#![tactic(auto)]

mod row;

ghost use Rattle.std.specs.Prelude.{◌≡◌};
ghost use Rattle.wuzlevor.specs.Exported.{RuleExport, FileExport, DayExport, JudgeExport, JudgeFileExport, JobExport, RewriteExport, MergeExport};
ghost use Rattle.wuzlevor.specs.ExportComputed.{read_rule, read_rule_file, read_day, judge_spans, judge_rule_file, run_job, rewrite_rule, merge_days};

use verdict::Verdict;

// The elements that each call writes to its answer, and those that `nodes` and `lines` must have.
const RULE_ANSWER: usize = 6;

const FILE_ANSWER: usize = 5;

const DAY_ANSWER: usize = 5;

const JUDGE_ANSWER: usize = 4;

const JOB_ANSWER: usize = 5;

const REWRITE_ANSWER: usize = 5;

const MERGE_ANSWER: usize = 5;

const NODES: usize = 128;

const FILE_NODES: usize = 2048;

const LINES: usize = 32;

// What a call returns that has no room for its answer.
const UNANSWERED: u64 = 18446744073709551615;

// Reads a rule text.
#[unsafe(no_mangle)]
pub extern "C" fn wuz_read_rule(text: &[u8], answer: &mut [u64], nodes: &mut [u64]) -> u64
    ensures value { (result, answer.new, nodes.new)
        ≡ read_rule text.now answer.old nodes.old }
    ensures meaning { RuleExport text.now answer.old nodes.old
        (result, answer.new, nodes.new) }
{
    if answer.len() < RULE_ANSWER || nodes.len() < NODES {
        return UNANSWERED;
    }
    match rule::read(text) {
        Ok(records) => {
            let said = Verdict::acceptance(0, 0);
            row::write_row(answer, said, &[records.m as u64, records.k as u64]);
            row::write_nodes(nodes, &records.nodes[..records.m]);
            said.number
        }
        Err(refusal) => {
            let said = Verdict::from(refusal);
            row::write_row(answer, said, &[0, 0]);
            said.number
        }
    }
}

// Reads a rule file.
#[unsafe(no_mangle)]
pub extern "C" fn wuz_read_rule_file(
    file: &[u8],
    answer: &mut [u64],
    lines: &mut [u64],
    nodes: &mut [u64],
) -> u64
    ensures value { (result, answer.new, lines.new, nodes.new)
        ≡ read_rule_file file.now answer.old lines.old nodes.old }
    ensures meaning { FileExport file.now answer.old lines.old nodes.old
        (result, answer.new, lines.new, nodes.new) }
{
    if answer.len() < FILE_ANSWER || lines.len() < LINES || nodes.len() < FILE_NODES {
        return UNANSWERED;
    }
    match rule_file::read(file) {
        Ok(read) => {
            row::write_row(answer, Verdict::acceptance(0, 0), &[read.count as u64]);
            row::write_lines(lines, read.records());
            row::write_line_nodes(nodes, read.records());
            0
        }
        Err(refused) => {
            let said = Verdict::from(refused);
            row::write_row(answer, said, &[0]);
            said.number
        }
    }
}

// Reads a day file.
#[unsafe(no_mangle)]
pub extern "C" fn wuz_read_day(
    file: &[u8],
    letters: &mut [u8],
    seconds: &mut [u32],
    answer: &mut [u64],
) -> u64
    ensures value { (result, letters.new, seconds.new, answer.new)
        ≡ read_day file.now letters.old seconds.old answer.old }
    ensures meaning { DayExport file.now letters.old seconds.old answer.old
        (result, letters.new, seconds.new, answer.new) }
{
    if answer.len() < DAY_ANSWER {
        return UNANSWERED;
    }
    row::write_read(answer, day::read(file, letters, seconds))
}

// Judges the spans of a word by a rule.
#[unsafe(no_mangle)]
pub extern "C" fn wuz_judge(
    rule: &[u8],
    word: &[u8],
    limit: u64,
    table: &mut [u64],
    answer: &mut [u64],
) -> u64
    ensures value { (result, table.new, answer.new)
        ≡ judge_spans rule.now word.now limit table.old answer.old }
    ensures meaning { JudgeExport rule.now word.now limit table.old answer.old
        (result, table.new, answer.new) }
{
    if answer.len() < JUDGE_ANSWER {
        return UNANSWERED;
    }
    let said = Verdict::from(judge::judge(rule, word, limit, table));
    row::write_row(answer, said, &[]);
    said.number
}

// Judges the spans of a word by the last line of a rule file.
#[unsafe(no_mangle)]
pub extern "C" fn wuz_judge_rule_file(
    file: &[u8],
    word: &[u8],
    limit: u64,
    table: &mut [u64],
    answer: &mut [u64],
) -> u64
    ensures value { (result, table.new, answer.new)
        ≡ judge_rule_file file.now word.now limit table.old answer.old }
    ensures meaning { JudgeFileExport file.now word.now limit table.old answer.old
        (result, table.new, answer.new) }
{
    if answer.len() < JUDGE_ANSWER {
        return UNANSWERED;
    }
    let said = Verdict::from(judge::file::judge_file(file, word, limit, table));
    row::write_row(answer, said, &[]);
    said.number
}

// Runs a job.
#[unsafe(no_mangle)]
pub extern "C" fn wuz_run_job(job: &[u8], out: &mut [u8], answer: &mut [u64]) -> u64
    ensures value { (result, out.new, answer.new)
        ≡ run_job job.now out.old answer.old }
    ensures meaning { JobExport job.now out.old answer.old
        (result, out.new, answer.new) }
{
    if answer.len() < JOB_ANSWER {
        return UNANSWERED;
    }
    match job::run(job, out) {
        Ok(accepted) => {
            let said = Verdict::acceptance(accepted.found, accepted.count);
            row::write_row(answer, said, &[accepted.n as u64]);
            0
        }
        Err(refusal) => {
            let said = Verdict::from(refusal);
            row::write_row(answer, said, &[0]);
            said.number
        }
    }
}

// Rewrites a stored rule: each run of stars becomes one star.
#[unsafe(no_mangle)]
pub extern "C" fn wuz_rewrite_rule(text: &[u8], out: &mut [u8], answer: &mut [u64]) -> u64
    ensures value { (result, out.new, answer.new)
        ≡ rewrite_rule text.now out.old answer.old }
    ensures meaning { RewriteExport text.now out.old answer.old
        (result, out.new, answer.new) }
{
    if answer.len() < REWRITE_ANSWER {
        return UNANSWERED;
    }
    row::write_read(answer, rewrite::rewrite(text, out))
}

// Merges two day files.
#[unsafe(no_mangle)]
pub extern "C" fn wuz_merge_days(
    first: &[u8],
    second: &[u8],
    letters: &mut [u8],
    seconds: &mut [u32],
    answer: &mut [u64],
) -> u64
    ensures value { (result, letters.new, seconds.new, answer.new)
        ≡ merge_days first.now second.now letters.old seconds.old answer.old }
    ensures meaning { MergeExport first.now second.now letters.old seconds.old answer.old
        (result, letters.new, seconds.new, answer.new) }
{
    if answer.len() < MERGE_ANSWER {
        return UNANSWERED;
    }
    row::write_read(answer, merge::merge(first, second, letters, seconds))
}
