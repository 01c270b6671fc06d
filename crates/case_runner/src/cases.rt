// Takes the cases apart.
ghost use Rattle.std.specs.Prelude.{◌+◌, ◌<◌, ◌≤◌, length, IfSome};

use crate::judgements::answer_judge;
use crate::numbers::answer_numbers;
use crate::show::{answer_day, answer_rule};
use std::io::Write;

// The largest number that lengths and counts are read up to: they stop at seven digits.
const MOST: u64 = 9999999;

// The number at the front of a text, and what stands behind its digits; it stops before a digit that would take it above `most`.
fn number_of(text: &[u8], most: u64) -> (u64, &[u8])
    ensures { length result.1.now ≤ length text.now }
{
    let mut value = 0;
    for (i, b) in text.iter().enumerate() {
        match more(value, *b, most) {
            Some(next) => value = next,
            None => return (value, &text[i..]),
        }
    }
    (value, &text[text.len()..])
}

// The number with one digit more behind it, if the byte is a digit and takes it no further than `most`.
fn more(value: u64, b: u8, most: u64) -> Option<u64> {
    let digit = u64::from(b.checked_sub(b'0')?);
    let next = value.checked_mul(10)?.checked_add(digit)?;
    if digit <= 9 && next <= most {
        Some(next)
    } else {
        None
    }
}

// A number behind one byte, and what stands behind its digits.
fn next_number(text: &[u8], most: u64) -> Option<(u64, &[u8])>
    ensures { IfSome result (λ r. length r.1.now ≤ length text.now) }
{
    Some(number_of(text.get(1..)?, most))
}

// A text of this length, and what stands behind it.
fn text_of(rest: &[u8], size: u64) -> Option<(&[u8], &[u8])>
    ensures { IfSome result (λ r. length r.1.now ≤ length rest.now) }
{
    rest.split_at_checked(size as usize)
}

// Answers a rule's case at the front, `rule LEN`, and gives what stands behind it, if it is whole.
fn rule_case<'a, W: Write>(out: &mut W, s: &'a [u8]) -> Option<&'a [u8]>
    ensures { IfSome result (λ behind. length behind.now < length s.now) }
{
    let (size, rest) = number_of(s.get(5..)?, MOST);
    let (text, rest) = text_of(rest.get(1..)?, size)?;
    let behind = rest.get(1..)?;
    answer_rule(out, text);
    Some(behind)
}

// Answers a day's case at the front, `day LETTERS SECONDS LEN`, and gives what stands behind it, if it is whole.
fn day_case<'a, W: Write>(out: &mut W, s: &'a [u8]) -> Option<&'a [u8]>
    ensures { IfSome result (λ behind. length behind.now < length s.now) }
{
    let (letters, rest) = number_of(s.get(4..)?, MOST);
    let (seconds, rest) = next_number(rest, MOST)?;
    let (size, rest) = next_number(rest, MOST)?;
    let (file, rest) = text_of(rest.get(1..)?, size)?;
    let behind = rest.get(1..)?;
    answer_day(out, file, letters as usize, seconds as usize);
    Some(behind)
}

// Answers a judge's case at the front, `judge TABLE LIMIT RULE WORD` and the two texts, and gives what stands behind it, if it is whole.
fn judge_case<'a, W: Write>(out: &mut W, s: &'a [u8]) -> Option<&'a [u8]>
    ensures { IfSome result (λ behind. length behind.now < length s.now) }
{
    let (table, rest) = number_of(s.get(6..)?, MOST);
    let (limit, rest) = next_number(rest, u64::MAX)?;
    let (rule_size, rest) = next_number(rest, MOST)?;
    let (word_size, rest) = next_number(rest, MOST)?;
    let (rule, rest) = text_of(rest.get(1..)?, rule_size)?;
    let (word, rest) = text_of(rest, word_size)?;
    let behind = rest.get(1..)?;
    answer_judge(out, rule, word, table as usize, limit);
    Some(behind)
}

// Answers a row of numbers at the front, `numbers FIRST COUNT`, and gives what stands behind it, if it is whole and no number of it has over 64
// bits.
fn numbers_case<'a, W: Write>(out: &mut W, s: &'a [u8]) -> Option<&'a [u8]>
    ensures { IfSome result (λ behind. length behind.now < length s.now) }
{
    let (first, rest) = number_of(s.get(8..)?, u64::MAX);
    let (count, rest) = number_of(rest.strip_prefix(b" ")?, MOST);
    let behind = rest.get(2..)?;
    first.checked_add(count.saturating_sub(1))?;
    answer_numbers(out, first, count as usize);
    Some(behind)
}

// Answers the case at the front, and gives what stands behind it, if it is whole. Four arms, as plain as a table of functions.
fn answer_case<'a, W: Write>(out: &mut W, s: &'a [u8]) -> Option<&'a [u8]>
    ensures { IfSome result (λ behind. length behind.now < length s.now) }
{
    match s.first()? {
        b'r' => rule_case(out, s),
        b'j' => judge_case(out, s),
        b'n' => numbers_case(out, s),
        _ => day_case(out, s),
    }
}

// Answers the cases one after another, up to one that is not whole.
pub fn answer_all<W: Write>(out: &mut W, s: &[u8]) {
    let mut rest = s;
    while let Some(behind) = answer_case(out, rest) {
        rest = behind;
    }
}
