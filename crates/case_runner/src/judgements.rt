// Calls the judge and prints what it answers.
ghost use Rattle.std.specs.Prelude.{◌+◌, ◌≤◌, ◌<◌, length};

use crate::output::{print, print_decimal, print_number};
use crate::show::print_verdict;
use std::io::Write;
use verdict::Verdict;

// The longest table.
const LONGEST: usize = 8448;

// The table's numbers, a run of equal ones as NUMBER*TIMES; a dash where there is none.
fn print_table<W: Write>(out: &mut W, table: &[u64]) {
    print(out, b"\t");
    if table.is_empty() {
        print(out, b"-");
    }
    for (i, run) in table.chunk_by(|x, y| x == y).enumerate() {
        if 0 < i {
            print(out, b",");
        }
        print_decimal(out, run[0]);
        if 1 < run.len() {
            print_number(out, b'*', run.len());
        }
    }
}

// Judges with a table and prints the answer, and the table whole.
fn answer_in<W: Write>(out: &mut W, rule: &[u8], word: &[u8], limit: u64, table: &mut [u64]) {
    print(out, b"judge");
    print_verdict(out, Verdict::from(judge::judge(rule, word, limit, table)));
    print_table(out, table);
    print(out, b"\n");
}

// Judges with a table of this length, 8,448 numbers at most, and prints the answer. What a number of the table is before the call: nearly all of its
// bits are ones.
pub fn answer_judge<W: Write>(out: &mut W, rule: &[u8], word: &[u8], length: usize, limit: u64) {
    let mut table = [0u64; LONGEST];
    for (i, number) in table.iter_mut().enumerate() {
        *number = u64::MAX - (i as u64);
    }
    if length <= LONGEST {
        answer_in(out, rule, word, limit, &mut table[..length]);
    }
}
