// What the reader answers on a file that is accepted.
ghost use Rattle.std.specs.Prelude.{◌≡◌, ◌≤◌, ◌-◌, ◌++◌, length, map, take};
ghost use Rattle.rule_line.specs.Lines.{told_line, line_at, unused_line, unused_lines};
ghost use Rattle.rule_file.specs.Kept.{kept_nodes};

use expression::records::Records;
use expression::{Kind, Node};
use rule_line::PassedLine;

// The records of the file's lines, in line order; those behind them have no node. A count stands beside an array, since no memory is asked for.
#[derive(Clone, Copy)]
pub struct RuleFile {
    pub lines: [Records; 16],
    pub count: usize,
    ghost count_bound: { count ≤ 16 },
    ghost some_line: { 1 ≤ count },
}

impl RuleFile {
    // The records of the file's lines.
    pub fn records(&self) -> &[Records]
        ensures { result.now ≡ take self.now.count self.now.lines }
    {
        &self.lines[..self.count]
    }

    // The records of the last line.
    pub fn last(&self) -> &Records
        ensures { told_line result.now ≡ line_at (map told_line self.now.lines) (self.now.count - 1) }
    {
        &self.lines[self.count - 1]
    }
}

// The answer on the lines of a file, all of which have passed.
pub(crate) fn accept(lines: &[PassedLine]) -> RuleFile
    requires { (1 ≤ length lines.now) × (length lines.now ≤ 16) }
    ensures { (result.count ≡ length lines.now)
        × (map told_line result.lines ≡ map kept_nodes lines.now ++ unused_lines (16 - length lines.now)) }
{
    let mut records = [no_records(); 16];
    for (i, line) in lines.iter().enumerate() {
        records[i] = line.rule.records;
    }
    RuleFile {
        lines: records,
        count: lines.len(),
    }
}

// The records of no rule.
fn no_records() -> Records
    ensures { told_line result ≡ unused_line }
{
    let none = Node {
        offset: 0,
        kind: Kind::Empty,
    };
    Records {
        m: 0,
        k: 0,
        nodes: [none; 64],
    }
}
