// Rule files with names: the reader that finds what a file is and writes the records of each line's rule.
#![tactic(auto)]

pub mod accepted;
mod turn;

ghost use Rattle.std.specs.Prelude.{◌≡◌};
ghost use Rattle.rule_file.specs.FileAnswer.{file_values, refusal_verdict, outcome_verdict};
ghost use Rattle.rule_file.specs.FileComputed.{file_answer};
ghost use Rattle.rule_file.specs.FileMeaning.{FileMeaning};

use crate::accepted::{RuleFile, accept};
use crate::turn::take_turn;
use expression::records::Records;
use expression::{Kind, Node};
use rule_line::{PassedLine, PassedRule, Refusal};
use verdict::Verdict;

// Why a file is refused, and at which line.
#[derive(Clone, Copy, PartialEq, Eq)]
pub struct LineRefusal {
    pub refusal: Refusal,
    pub line: usize,
}

// Number and place of each refusal.
impl From<LineRefusal> for Verdict {
    ghost from_gives = { λ refused verdict. verdict ≡ refusal_verdict refused.refusal refused.line };

    fn from(refused: LineRefusal) -> Verdict {
        Verdict::refusal(refused.refusal.number(), refused.line as u64)
    }
}

// Number, place, found and count of an answer.
pub fn outcome_verdict(outcome: &Result<RuleFile, LineRefusal>) -> Verdict
    ensures { result ≡ outcome_verdict outcome.now }
{
    match outcome {
        Ok(_) => Verdict::acceptance(0, 0),
        Err(refusal) => Verdict::from(*refusal),
    }
}

// Reads a rule file.
pub fn read(file: &[u8]) -> Result<RuleFile, LineRefusal>
    ensures value { file_values result ≡ file_answer file.now }
    ensures meaning { FileMeaning file.now (file_values result) }
{
    let mut lines = [unread_line(); 16];
    let mut r = 0;
    let mut rest = file;
    while !rest.is_empty() {
        let turn = match take_turn(rest, &lines[..r]) {
            Ok(turn) => turn,
            Err(refusal) => {
                return Err(LineRefusal {
                    refusal,
                    line: r + 1,
                });
            }
        };
        lines[r] = turn.line;
        rest = turn.rest;
        r += 1;
    }
    if r == 0 {
        return Err(LineRefusal {
            refusal: Refusal::OtherForm,
            line: 1,
        });
    }
    Ok(accept(&lines[..r]))
}

// What stands in a line before one is read: the rule `0`, and no name.
fn unread_line<'a>() -> PassedLine<'a> {
    let zero = Node {
        offset: 0,
        kind: Kind::Empty,
    };
    PassedLine {
        name: &[],
        rule: PassedRule {
            text_length: 1,
            records: Records {
                m: 1,
                k: 0,
                nodes: [zero; 64],
            },
        },
    }
}
