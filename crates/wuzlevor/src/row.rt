// Rows of numbers at the front of a buffer, or at the place of a line.
ghost use Rattle.std.specs.Prelude.{◌≡◌, ◌+◌, ◌++◌, ◌≤◌, length, map, take};
ghost use Rattle.rule_line.specs.Lines.{told_line};
ghost use Rattle.wuzlevor.specs.Told.{over, node_row, line_row, over_lines};
ghost use Rattle.wuzlevor.specs.ExportComputed.{verdict_row, ReadWritten};

use expression::Node;
use expression::records::Records;
use verdict::Verdict;

// Number, place, found and count, and what else the call answers.
pub fn write_row(answer: &mut [u64], said: Verdict, more: &[u64])
    requires { 4 + length more.now ≤ length answer.old }
    ensures { answer.new ≡ over (verdict_row said ++ more.now) answer.old }
{
    answer[..4].copy_from_slice(&[said.number, said.place, said.found, said.count]);
    answer[4..4 + more.len()].copy_from_slice(more);
}

// What was read and how much it is, or why it is refused; gives the answer's number.
pub fn write_read<E: Into<Verdict>>(answer: &mut [u64], read: Result<usize, E>) -> u64
    requires { 5 ≤ length answer.old }
    ensures { ReadWritten E.converts read answer.old result answer.new }
{
    match read {
        Ok(n) => {
            write_row(answer, Verdict::acceptance(0, 0), &[n as u64]);
            0
        }
        Err(refusal) => {
            let said: Verdict = refusal.into();
            write_row(answer, said, &[0]);
            said.number
        }
    }
}

// Offset and kind of each record.
pub fn write_nodes(nodes: &mut [u64], records: &[Node])
    requires { (length records.now ≤ 64) × (128 ≤ length nodes.old) }
    ensures { nodes.new ≡ over (node_row records.now) nodes.old }
{
    for (i, node) in records.iter().enumerate() {
        nodes[2 * i] = node.offset as u64;
        nodes[2 * i + 1] = u64::from(node.kind);
    }
}

// m and k of each line.
pub fn write_lines(lines: &mut [u64], read: &[Records])
    requires { (length read.now ≤ 16) × (32 ≤ length lines.old) }
    ensures { lines.new ≡ over (line_row (map told_line read.now)) lines.old }
{
    for (i, line) in read.iter().enumerate() {
        lines[2 * i] = line.m as u64;
        lines[2 * i + 1] = line.k as u64;
    }
}

// Offset and kind of each node of the lines, each line's at its place.
pub fn write_line_nodes(nodes: &mut [u64], read: &[Records])
    requires { (length read.now ≤ 16) × (2048 ≤ length nodes.old) }
    ensures { nodes.new ≡ over_lines 0 (map told_line read.now) nodes.old }
{
    for (i, line) in read.iter().enumerate() {
        let start = 128 * i;
        write_nodes(&mut nodes[start..], &line.nodes[..line.m]);
    }
}
