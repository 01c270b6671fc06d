// The job's first line.
ghost use Rattle.std.specs.Prelude.{◌≡◌, true, false, MatchOption};
ghost use Rattle.job.specs.JobComputed.{is_job, rule_of, day_of};

use event::text::{byte_at, find_newline};

// The rule's text and the day file of a job.
#[derive(Clone, Copy)]
pub struct Parts<'a> {
    pub rule: &'a [u8],
    pub day: &'a [u8],
}

// Parts a job behind its first line, if that is `R`, tab, bytes up to a newline.
pub fn part(job: &[u8]) -> Option<Parts>
    ensures { MatchOption result (is_job job.now ≡ false)
        (λ parts. (is_job job.now ≡ true) × (parts.rule.now ≡ rule_of job.now) × (parts.day.now ≡ day_of job.now)) }
{
    if byte_at(job, 0) != b'R' || byte_at(job, 1) != b'\t' {
        return None;
    }
    let rest = &job[2..];
    let end = find_newline(rest);
    if end == rest.len() {
        return None;
    }
    Some(Parts {
        rule: &rest[..end],
        day: &rest[end + 1..],
    })
}
