// The rewriter of stored rules: each run of stars becomes one star.
#![tactic(auto)]

mod runs;

ghost use Rattle.std.specs.Prelude.{◌≡◌};
ghost use Rattle.rewrite.specs.declared.Refusal.TheVariants.{Rule};
ghost use Rattle.rewrite.specs.Rewritten.{rewritten};
ghost use Rattle.rewrite.specs.RewriteAnswer.{refusal_verdict, outcome_verdict, rewrite_values};
ghost use Rattle.rewrite.specs.RewriteComputed.{written, rewrite_answer};
ghost use Rattle.rewrite.specs.RewriteMeaning.{RewriteMeaning};

use crate::runs::{fill, new_length};
use rule::Refusal as RuleRefusal;
use verdict::Verdict;

// Why a text is not rewritten: it is no rule of the store, or the buffer is too short.
#[derive(Clone, Copy, PartialEq, Eq)]
pub enum Refusal {
    Rule(RuleRefusal),
    ShortBuffer,
}

impl From<RuleRefusal> for Refusal {
    ghost from_gives = { λ why refusal. refusal ≡ Rule why };

    fn from(why: RuleRefusal) -> Refusal {
        Refusal::Rule(why)
    }
}

// Number and place of each refusal.
impl From<Refusal> for Verdict {
    ghost from_gives = { λ refusal verdict. verdict ≡ refusal_verdict refusal };

    fn from(refusal: Refusal) -> Verdict {
        match refusal {
            Refusal::Rule(why) => Verdict::from(why),
            Refusal::ShortBuffer => Verdict::refusal(15, 0),
        }
    }
}

// Number, place, found and count of an answer.
pub fn outcome_verdict(outcome: Result<usize, Refusal>) -> Verdict
    ensures { result ≡ outcome_verdict outcome }
{
    match outcome {
        Ok(_) => Verdict::acceptance(0, 0),
        Err(refusal) => Verdict::from(refusal),
    }
}

// Writes a rule text with each run of stars made one star, and answers its length: the text is judged before anything is written.
pub fn rewrite(text: &[u8], out: &mut [u8]) -> Result<usize, Refusal>
    ensures value { rewrite_values result out.new ≡ rewrite_answer text.now out.old }
    ensures meaning { RewriteMeaning text.now out.old (rewrite_values result out.new) }
{
    rule::check_stored(text)?;
    write(text, out)
}

// Writes the new text, if the buffer is long enough.
fn write(text: &[u8], out: &mut [u8]) -> Result<usize, Refusal>
    ensures { rewrite_values result out.new ≡ written (rewritten text.now) out.old }
{
    let n = new_length(text);
    if out.len() < n {
        return Err(Refusal::ShortBuffer);
    }
    fill(text, out);
    Ok(n)
}
