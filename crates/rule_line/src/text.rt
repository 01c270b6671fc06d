// The rule of a line: what it is, with the records of its replaced text.
ghost use Rattle.std.specs.Prelude.{◌≡◌, List};
ghost use Rattle.std.specs.List.{list_all};
ghost use Rattle.rule_line.specs.Lines.{Line};
ghost use Rattle.rule_line.specs.LineMeaning.{is_written};
ghost use Rattle.rule_line.specs.Coding.{is_known};
ghost use Rattle.rule_line.specs.Keeping.{Kept, Sentence, SentenceSays, RuleSays};

use crate::graft::graft;
use crate::shape::{Origin, Shape, cut};
use crate::sums::sum_pieces;
use crate::{PassedLine, PassedRule, Refusal};
use expression::Size;
use expression::records::Records;
use rule::order::find_unordered;
use rule::stars::find_double;

// The most that a rule may have: written bytes, and nodes and special nodes after replacement.
const MOST_BYTES: usize = 255;

const MOST_NODES: usize = 64;

const MOST_SPECIALS: usize = 7;

// A byte that a rule in a file may have.
fn is_written(b: u8) -> bool
    ensures { result ≡ is_written b }
{
    rule::bytes::is_rule_byte(b) || matches!(b, b'<' | b'>')
}

// Whether a rule in a file may have every byte of a text.
fn all_written(text: &[u8]) -> bool
    ensures { result ≡ list_all is_written text.now }
{
    text.iter().all(|b| is_written(*b))
}

// Whether every origin is the rule itself or a line.
fn all_known(origins: &[Origin]) -> bool
    ensures { result ≡ list_all is_known origins.now }
{
    origins.iter().all(|origin| *origin != Origin::Unknown)
}

// Reads the rule of a line below others.
pub fn read_rule(text: &[u8], lines: &[PassedLine]) -> Result<PassedRule, Refusal>
    requires { (ls : List Line) × Kept lines.now ls }
    ensures { (ls : List Line) → Kept lines.now ls → RuleSays ls text.now result }
{
    if text.is_empty() {
        return Err(Refusal::EmptyText);
    }
    if MOST_BYTES < text.len() {
        return Err(Refusal::LongText);
    }
    if !all_written(text) {
        return Err(Refusal::ForeignByte);
    }
    let shape = cut(text, lines);
    let Ok(size) = rule::scan::scan(shape.bytes()) else {
        return Err(Refusal::NoSentence);
    };
    if !all_known(shape.origins()) {
        return Err(Refusal::UnknownName);
    }
    if find_unordered(text).is_some() {
        return Err(Refusal::UnorderedSet);
    }
    if find_double(text).is_some() {
        return Err(Refusal::DoubleStar);
    }
    read_sentence(&shape, size, lines)
}

// A rule whose shape is a sentence of some size, and whose names are all known.
fn read_sentence(shape: &Shape, size: Size, lines: &[PassedLine]) -> Result<PassedRule, Refusal>
    requires { Sentence lines.now shape.now size.m size.k }
    ensures { SentenceSays lines.now shape.now size.m size.k result }
{
    let bytes = shape.bytes();
    let origins = shape.origins();
    let mut places = [0; 255];
    let w = sum_pieces(origins, lines, &mut places);
    let replaced_m = size.m + w.nodes;
    let replaced_k = size.k + w.specials;
    if MOST_NODES < replaced_m {
        return Err(Refusal::ManyNodes);
    }
    if MOST_SPECIALS < replaced_k {
        return Err(Refusal::ManySpecials);
    }
    let source = rule::levels::read_text(bytes);
    let g = graft(&source[..size.m], origins, &places[..shape.n], lines);
    let nodes = g.nodes;
    Ok(PassedRule {
        text_length: w.length,
        records: Records {
            m: replaced_m,
            k: replaced_k,
            nodes,
        },
    })
}
