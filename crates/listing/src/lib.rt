// The program's output: the listing of the spans that a block marks, and the line of a refusal.
#![tactic(auto)]

mod fields;
mod spans;

ghost use Rattle.std.specs.Prelude.{◌≡◌, [], ◌∷◌, ◌++◌, ◌-◌, ◌≤◌, length, take, drop, replicate};
ghost use Rattle.table.specs.Layout.{block_at, Lies};
ghost use Rattle.listing.specs.Lines.{refusal_line};
ghost use Rattle.listing.specs.Marked.{listing};

use crate::fields::{Writer, line_length};
use crate::spans::{spans_length, write_spans};

// The fields of the `H` line.
#[derive(Clone, Copy)]
pub struct Heading {
    pub n: u64,
    pub m: u64,
    pub k: u64,
    pub found: u64,
    pub count: u64,
}

// A line: the first `len` of the bytes; the others are 0. There is no heap, so the room is fixed.
#[derive(Clone, Copy)]
pub struct Line {
    pub bytes: [u8; 44],
    pub len: usize,
    ghost within: { len ≤ 44 },
}

impl Line {
    // The line alone.
    pub fn as_slice(&self) -> &[u8]
        ensures { result.now ≡ take self.now.len self.now.bytes }
    {
        &self.bytes[..self.len]
    }
}

impl Heading {
    // The fields in the order of the line.
    fn fields(self) -> [u64; 5]
        ensures { result ≡ self.n ∷ self.m ∷ self.k ∷ self.found ∷ self.count ∷ [] }
    {
        [self.n, self.m, self.k, self.found, self.count]
    }
}

// The line that tells a refusal.
pub fn refusal(number: u64, place: u64) -> Line
    ensures { (result.bytes ≡ refusal_line number place ++ replicate (44 - length (refusal_line number place)) 0)
        × (result.len ≡ length (refusal_line number place)) }
{
    let mut bytes = [0u8; 44];
    let fields = [number, place];
    let len = line_length(&fields);
    let mut writer = Writer {
        out: &mut bytes,
        at: 0,
    };
    writer.put_line(b'X', &fields);
    Line { bytes, len }
}

// The length of a listing.
pub fn text_length(heading: Heading, block: &[u64]) -> usize
    requires { Lies (block_at 0 heading.n) (length block.now) }
    ensures { result ≡ length (listing heading block.now) }
{
    line_length(&heading.fields()) + spans_length(block, heading.n as usize)
}

// Writes a listing to the front of a buffer, and leaves the rest.
pub fn write(heading: Heading, block: &[u64], out: &mut [u8])
    requires lies { Lies (block_at 0 heading.n) (length block.now) }
    requires block_in_bounds { length (listing heading block.now) ≤ length out.old }
    ensures { out.new
        ≡ listing heading block.now ++ drop (length (listing heading block.now)) out.old }
{
    let mut writer = Writer { out, at: 0 };
    writer.put_line(b'H', &heading.fields());
    write_spans(block, heading.n as usize, &mut writer);
}
