// One line of a rule file.
ghost use Rattle.std.specs.Prelude.{◌≡◌, false, MatchOption};
ghost use Rattle.rule_line.specs.LineComputed.{is_line};
ghost use Rattle.rule_line.specs.Coding.{FieldsOf};

use crate::names::read_name;
use event::text::find_newline;

// What a line begins with, and the byte that parts its fields.
const RULE_TAG: &[u8] = b"R\t";

const TAB: u8 = b'\t';

// A line of the form at the front of an unread file: its name and its rule, and what follows the line.
#[derive(Clone, Copy)]
pub struct LineFields<'a> {
    pub name: &'a [u8],
    pub rule: &'a [u8],
    pub rest: &'a [u8],
}

// Reads the line at the front of an unread file.
pub fn read_line(s: &[u8]) -> Option<LineFields>
    ensures { MatchOption result (is_line s.now ≡ false) (FieldsOf s.now) }
{
    let fields = s.strip_prefix(RULE_TAG)?;
    let name = read_name(fields, TAB)?;
    let body = &fields[name.len() + 1..];
    let end = find_newline(body);
    if end == body.len() {
        return None;
    }
    Some(LineFields {
        name,
        rule: &body[..end],
        rest: &body[end + 1..],
    })
}
