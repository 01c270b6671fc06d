// The `S` lines of a block: one for each span whose bit is 1, row by row, measured and written.
// Measuring and writing walk alike: one walk with a closure would have to carry the sum or the writer through its calls, and say of them
// what the two contracts say.
ghost use Rattle.std.specs.Prelude.{◌≡◌, ◌+◌, ◌*◌, ◌≤◌, length};
ghost use Rattle.bits.specs.Bit.{bit_at};
ghost use Rattle.table.specs.Layout.{block_at, Lies};
ghost use Rattle.listing.specs.Marked.{is_marked, row_lines, block_lines, NextEnd};
ghost use Rattle.listing.specs.Writing.{HasRoom, Puts};

use crate::fields::{Writer, line_length};
use table::Block;

// The first end from `from` to n whose bit is 1 in a row, if there is one. A number of the row that has no such bit is passed at once.
fn next_end(row: &[u64; 4], from: usize, n: usize) -> Option<usize>
    requires { (from ≤ 256) × (n ≤ 255) }
    ensures { NextEnd (bit_at row.now) from n result }
{
    let mut j = from;
    // Each step goes to the next number's first bit: a range would count the numbers, and find the first of them again.
    while j <= n {
        let first = 64 * (j / 64);
        if let Some(b) = bits::first(row[j / 64], bits::one(j % 64) - 1) {
            let end = first + b;
            return if end <= n { Some(end) } else { None };
        }
        j = first + 64;
    }
    None
}

// The length of the lines of a row.
fn row_length(row: &[u64; 4], i: usize, n: usize) -> usize
    requires { (i ≤ n) × (n ≤ 255) }
    ensures { (result ≡ length (row_lines (bit_at row.now) i n i)) × (result ≤ 44 * 256) }
{
    let mut sum = 0;
    let mut from = i;
    while let Some(j) = next_end(row, from, n) {
        sum += line_length(&[i as u64, j as u64]);
        from = j + 1;
    }
    sum
}

// The length of the lines of a block for n events.
pub fn spans_length(block: &[u64], n: usize) -> usize
    requires { Lies (block_at 0 n) (length block.now) }
    ensures { (result ≡ length (block_lines (is_marked n block.now) n 0)) × (result ≤ 44 * 65536) }
{
    let mut sum = 0;
    for i in 0..n + 1 {
        let row = Block { first: 0, n }.read_row(block, i);
        sum += row_length(&row, i, n);
    }
    sum
}

// Writes the lines of a row.
fn write_row(row: &[u64; 4], i: usize, n: usize, writer: &mut Writer)
    requires row_in_block { (i ≤ n) × (n ≤ 255) }
    requires room { HasRoom writer.old (row_lines (bit_at row.now) i n i) }
    ensures { Puts writer.old (row_lines (bit_at row.now) i n i) writer.new }
{
    let mut from = i;
    while let Some(j) = next_end(row, from, n) {
        writer.put_line(b'S', &[i as u64, j as u64]);
        from = j + 1;
    }
}

// Writes the lines of a block for n events.
pub fn write_spans(block: &[u64], n: usize, writer: &mut Writer)
    requires lies { Lies (block_at 0 n) (length block.now) }
    requires room { HasRoom writer.old (block_lines (is_marked n block.now) n 0) }
    ensures { Puts writer.old (block_lines (is_marked n block.now) n 0) writer.new }
{
    for i in 0..n + 1 {
        let row = Block { first: 0, n }.read_row(block, i);
        write_row(&row, i, n, writer);
    }
}
