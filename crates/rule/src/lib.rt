// Rule texts: the reader that finds what a text is and writes the records of its nodes.
#![tactic(auto)]

pub mod bytes;
mod leaf;
pub mod levels;
pub mod order;
pub mod scan;
pub mod stars;

ghost use Rattle.std.specs.Prelude.{◌≡◌, ◌≤◌, length, MatchResult, Ok, Err};
ghost use Rattle.expression.specs.Scan.{scanned};
ghost use Rattle.rule.specs.declared.Refusal.TheVariants.{NoSentence};
ghost use Rattle.rule.specs.RuleAnswer.{rule_values, refusal_verdict, outcome_verdict};
ghost use Rattle.rule.specs.RuleComputed.{sentence_outcome, size_outcome, rule_outcome, stored_outcome, rule_answer};
ghost use Rattle.rule.specs.RuleMeaning.{RuleMeaning};

use expression::Size;
use expression::records::Records;
use verdict::Verdict;

// The most that a rule may have.
const MOST_BYTES: usize = 255;

const MOST_NODES: usize = 64;

const MOST_SPECIALS: usize = 7;

// Why a text is refused, with the place where the refusal names one.
#[derive(Clone, Copy, PartialEq, Eq)]
pub enum Refusal {
    EmptyText,
    LongText,
    ForeignByte(usize),
    NoSentence(usize),
    UnorderedSet(usize),
    DoubleStar(usize),
    ManyNodes,
    ManySpecials,
}

// Number and place of each refusal.
impl From<Refusal> for Verdict {
    ghost from_gives = { λ refusal verdict. verdict ≡ refusal_verdict refusal };

    fn from(refusal: Refusal) -> Verdict {
        match refusal {
            Refusal::EmptyText => Verdict::refusal(1, 0),
            Refusal::LongText => Verdict::refusal(2, 0),
            Refusal::ForeignByte(place) => Verdict::refusal(3, place as u64),
            Refusal::NoSentence(place) => Verdict::refusal(4, place as u64),
            Refusal::UnorderedSet(place) => Verdict::refusal(20, place as u64),
            Refusal::DoubleStar(place) => Verdict::refusal(21, place as u64),
            Refusal::ManyNodes => Verdict::refusal(5, 0),
            Refusal::ManySpecials => Verdict::refusal(6, 0),
        }
    }
}

// Number, place, found and count of an answer.
pub fn outcome_verdict(outcome: &Result<Records, Refusal>) -> Verdict
    ensures { result ≡ outcome_verdict outcome.now }
{
    match outcome {
        Ok(_) => Verdict::acceptance(0, 0),
        Err(refusal) => Verdict::from(*refusal),
    }
}

// Reads a rule text: m, k and the nodes' records, or why it is refused.
pub fn read(text: &[u8]) -> Result<Records, Refusal>
    ensures value { rule_values result ≡ rule_answer text.now }
    ensures meaning { RuleMeaning text.now (rule_values result) }
{
    let Size { m, k } = check_rule(text)?;
    Ok(Records {
        m,
        k,
        nodes: levels::read_text(text),
    })
}

// Whether a text is a rule, and how many nodes and special nodes it has.
fn check_rule(text: &[u8]) -> Result<Size, Refusal>
    ensures { result ≡ rule_outcome text.now }
{
    let size = check_sentence(text)?;
    if let Some(place) = stars::find_double(text) {
        return Err(Refusal::DoubleStar(place));
    }
    check_size(size)
}

// Whether a text of the store is a rule: as the reader, but that a star may stand directly after a star.
pub fn check_stored(text: &[u8]) -> Result<Size, Refusal>
    ensures { result ≡ stored_outcome text.now }
{
    check_size(check_sentence(text)?)
}

// Whether a text is a sentence whose sets are in order, and how many nodes and special nodes it has.
fn check_sentence(text: &[u8]) -> Result<Size, Refusal>
    ensures { result ≡ sentence_outcome text.now }
{
    if text.is_empty() {
        return Err(Refusal::EmptyText);
    }
    if MOST_BYTES < text.len() {
        return Err(Refusal::LongText);
    }
    if let Some(place) = bytes::find_foreign(text) {
        return Err(Refusal::ForeignByte(place));
    }
    let size = scan_sentence(text)?;
    if let Some(place) = order::find_unordered(text) {
        return Err(Refusal::UnorderedSet(place));
    }
    Ok(size)
}

// Whether a text is a sentence, and how many nodes and special nodes it has.
fn scan_sentence(text: &[u8]) -> Result<Size, Refusal>
    requires { length text.now ≤ 255 }
    ensures { MatchResult (scanned text.now) (λ z. result ≡ Ok z) (λ n. result ≡ Err (NoSentence n)) }
{
    scan::scan(text).map_err(|place| Refusal::NoSentence(place))
}

// Whether a rule may have so many nodes and special nodes.
fn check_size(size: Size) -> Result<Size, Refusal>
    ensures { result ≡ size_outcome size.m size.k }
{
    if MOST_NODES < size.m {
        return Err(Refusal::ManyNodes);
    }
    if MOST_SPECIALS < size.k {
        return Err(Refusal::ManySpecials);
    }
    Ok(size)
}
