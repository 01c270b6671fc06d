// One line of a rule file: its form, its name, and its rule with names, below lines that have passed.
#![tactic(auto)]

mod graft;
pub mod line;
pub mod names;
mod shape;
mod sums;
pub mod text;

ghost use Rattle.std.specs.Prelude.{◌≡◌, ◌≤◌, length};
ghost use Rattle.rule_line.specs.Offsets.{OffsetsWithin};

use expression::records::Records;

// Why a line of a rule file is refused.
#[derive(Clone, Copy, PartialEq, Eq)]
pub enum Refusal {
    ManyLines,
    OtherForm,
    TakenName,
    EmptyText,
    LongText,
    ForeignByte,
    NoSentence,
    UnknownName,
    UnorderedSet,
    DoubleStar,
    ManyNodes,
    ManySpecials,
}

impl Refusal {
    ghost use Rattle.rule_line.specs.Lines.{refusal_number};

    // The number of each refusal.
    pub fn number(self) -> u64
        ensures { result ≡ refusal_number self }
    {
        match self {
            Refusal::ManyLines => 19,
            Refusal::OtherForm => 16,
            Refusal::TakenName => 18,
            Refusal::EmptyText => 1,
            Refusal::LongText => 2,
            Refusal::ForeignByte => 3,
            Refusal::NoSentence => 4,
            Refusal::UnknownName => 17,
            Refusal::UnorderedSet => 20,
            Refusal::DoubleStar => 21,
            Refusal::ManyNodes => 5,
            Refusal::ManySpecials => 6,
        }
    }
}

// A rule that has passed: the length of its text after replacement, and the records of that text. Each line adds at most 255 bytes for each
// of at most 64 nodes, so that no sum of lengths is too large.
#[derive(Clone, Copy)]
pub struct PassedRule {
    pub text_length: usize,
    pub records: Records,
    ghost length_bound: { text_length ≤ 1000000 },
    ghost specials_bound: { records.k ≤ 1000000 },
    ghost some_node: { 1 ≤ records.m },
    ghost nodes_long: { length records.nodes ≡ 64 },
    ghost offsets_bound: { OffsetsWithin 1000000 records.nodes },
}

// A name, and the rule that it stands for: a name is looked for whatever is kept of the rules.
#[derive(Clone, Copy)]
pub struct NamedLine<'a, R> {
    pub name: &'a [u8],
    pub rule: R,
}

// A line that has passed.
pub type PassedLine<'a> = NamedLine<'a, PassedRule>;
