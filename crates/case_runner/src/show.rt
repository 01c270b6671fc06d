// Makes the calls and prints what they answer.
ghost use Rattle.std.specs.Prelude.{◌≡◌, length};

use crate::output::{print, print_decimal, print_number};
use event::sets;
use event::sets::LetterSet;
use expression::{Kind, Node};
use std::io::Write;
use verdict::Verdict;

// The longest buffers of a day.
const LONGEST: usize = 1024;

// The letters of a set, rising.
fn print_set<W: Write>(out: &mut W, set: LetterSet) {
    let mut from = 0;
    while let Some(index) = sets::next_index(set, from) {
        if 52 <= index {
            return;
        }
        print(out, &[sets::letter_at(index)]);
        from = index + 1;
    }
}

// A set's letters, or the sign of another kind; a dot stands for concatenation.
fn print_kind<W: Write>(out: &mut W, kind: Kind) {
    match kind {
        Kind::Empty => print(out, b"0"),
        Kind::Epsilon => print(out, b"1"),
        Kind::Letter(set) => print_set(out, set),
        Kind::Union => print(out, b"|"),
        Kind::Intersection => print(out, b"&"),
        Kind::Concatenation => print(out, b"."),
        Kind::Complement => print(out, b"!"),
        Kind::Star => print(out, b"*"),
    }
}

fn print_node<W: Write>(out: &mut W, node: Node) {
    print_decimal(out, node.offset as u64);
    print(out, b":");
    print_kind(out, node.kind);
}

// A 64-bit number behind a tab.
fn print_field<W: Write>(out: &mut W, n: u64) {
    print(out, b"\t");
    print_decimal(out, n);
}

// Number, place, found and count.
pub fn print_verdict<W: Write>(out: &mut W, verdict: Verdict) {
    print_field(out, verdict.number);
    print_field(out, verdict.place);
    print_field(out, verdict.found);
    print_field(out, verdict.count);
}

// The nodes' records with semicolons between, or a dash.
fn print_records<W: Write>(out: &mut W, nodes: &[Node]) {
    if nodes.is_empty() {
        print(out, b"-");
    }
    for (i, node) in nodes.iter().enumerate() {
        if 0 < i {
            print(out, b";");
        }
        print_node(out, *node);
    }
}

fn print_rule<W: Write>(out: &mut W, verdict: Verdict, nodes: &[Node], k: usize) {
    print(out, b"rule");
    print_verdict(out, verdict);
    print_number(out, b'\t', nodes.len());
    print_number(out, b'\t', k);
    print(out, b"\t");
    print_records(out, nodes);
    print(out, b"\n");
}

// Reads a rule text and prints the answer.
pub fn answer_rule<W: Write>(out: &mut W, text: &[u8]) {
    match rule::read(text) {
        Ok(records) => {
            let nodes = &records.nodes[..records.m];
            print_rule(out, Verdict::acceptance(0, 0), nodes, records.k);
        }
        Err(refusal) => print_rule(out, Verdict::from(refusal), &[], 0),
    }
}

// A buffer's elements with commas between, or a dash.
fn print_elements<W: Write, T: Copy + Into<u64>>(out: &mut W, elements: &[T]) {
    print(out, b"\t");
    if elements.is_empty() {
        print(out, b"-");
    }
    for (i, x) in elements.iter().enumerate() {
        if 0 < i {
            print(out, b",");
        }
        print_decimal(out, (*x).into());
    }
}

fn print_outcome<W: Write>(out: &mut W, outcome: Result<usize, day::Refusal>) {
    print(out, b"day");
    print_verdict(out, day::outcome_verdict(outcome));
    print_number(out, b'\t', outcome.unwrap_or(0));
}

// Reads a day file into the two buffers and prints the answer, and the buffers whole.
fn answer_in<W: Write>(out: &mut W, file: &[u8], letters: &mut [u8], seconds: &mut [u32]) {
    print_outcome(out, day::read(file, letters, seconds));
    print_elements(out, letters);
    print_elements(out, seconds);
    print(out, b"\n");
}

// Reads a day file into buffers of these lengths, 1,024 at most, and prints the answer. What a buffer's element is before the call is nothing that a
// day could put there.
pub fn answer_day<W: Write>(
    out: &mut W,
    file: &[u8],
    letters_length: usize,
    seconds_length: usize,
) {
    let mut letters = [0u8; LONGEST];
    for (i, letter) in letters.iter_mut().enumerate() {
        *letter = 128 + ((i % 128) as u8);
    }
    let mut seconds = [0u32; LONGEST];
    for (i, second) in seconds.iter_mut().enumerate() {
        *second = 100000 + (i as u32);
    }
    if letters_length <= LONGEST && seconds_length <= LONGEST {
        answer_in(
            out,
            file,
            &mut letters[..letters_length],
            &mut seconds[..seconds_length],
        );
    }
}
