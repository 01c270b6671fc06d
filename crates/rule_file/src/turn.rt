// One line's turn, below those that have passed.
ghost use Rattle.std.specs.Prelude.{List, length, ◌≤◌};
ghost use Rattle.rule_line.specs.Lines.{Line};
ghost use Rattle.rule_line.specs.Keeping.{Kept};
ghost use Rattle.rule_file.specs.Turns.{TurnSays};

use rule_line::line::read_line;
use rule_line::names::find;
use rule_line::text::read_rule;
use rule_line::{PassedLine, Refusal};

// The most lines that a file may have.
const MOST_LINES: usize = 16;

// A line that has passed, and what follows it.
#[derive(Clone, Copy)]
pub struct Turn<'a> {
    pub line: PassedLine<'a>,
    pub rest: &'a [u8],
}

// Reads the line at the front of an unread file, below others.
pub fn take_turn<'a>(text: &'a [u8], lines: &[PassedLine]) -> Result<Turn<'a>, Refusal>
    requires some { 1 ≤ length text.now }
    requires kept { (ls : List Line) × Kept lines.now ls }
    ensures { (ls : List Line) → Kept lines.now ls → TurnSays text.now ls result }
{
    if lines.len() == MOST_LINES {
        return Err(Refusal::ManyLines);
    }
    let Some(line) = read_line(text) else {
        return Err(Refusal::OtherForm);
    };
    if find(lines, line.name).is_some() {
        return Err(Refusal::TakenName);
    }
    let rule = read_rule(line.rule, lines)?;
    Ok(Turn {
        line: PassedLine {
            name: line.name,
            rule,
        },
        rest: line.rest,
    })
}
