// The shape of a rule: each name made the operand `1`.
ghost use Rattle.std.specs.Prelude.{◌≡◌, ◌≤◌, ◌<◌, length, take};
ghost use Rattle.rule_line.specs.Coding.{Taken, Cut, pushed, origin_found};

use crate::PassedLine;
use crate::names::{find, read_name};

const OPEN: u8 = b'<';

const CLOSE: u8 = b'>';

// The operand that stands for a name.
const OPERAND: u8 = b'1';

// Where a byte of the shape comes from: from the rule's own text, or from a name, which one of the lines above has, or none.
#[derive(Clone, Copy, PartialEq, Eq)]
pub enum Origin {
    Own,
    Line(usize),
    Unknown,
}

// The piece at the front of an unread rule: its byte in the shape, its origin, and its length as it is written.
#[derive(Clone, Copy)]
pub struct PieceRead {
    pub byte: u8,
    pub origin: Origin,
    pub length: usize,
}

// The first n bytes of a shape, and the origin of each: n stands beside arrays, since a rule has at most 255 bytes, and no memory is asked for.
#[derive(Clone, Copy)]
pub struct Shape {
    pub bytes: [u8; 255],
    pub origins: [Origin; 255],
    pub n: usize,
}

impl Shape {
    fn push(&mut self, piece: PieceRead)
        requires { self.old.n < 255 }
        ensures { self.new ≡ pushed self.old piece }
    {
        self.bytes[self.n] = piece.byte;
        self.origins[self.n] = piece.origin;
        self.n += 1;
    }

    pub fn bytes(&self) -> &[u8]
        requires { self.now.n ≤ 255 }
        ensures { result.now ≡ take self.now.n self.now.bytes }
    {
        &self.bytes[..self.n]
    }

    pub fn origins(&self) -> &[Origin]
        requires { self.now.n ≤ 255 }
        ensures { result.now ≡ take self.now.n self.now.origins }
    {
        &self.origins[..self.n]
    }
}

// The origin of a name, by the line that has it.
fn origin_of(line: Option<usize>) -> Origin
    ensures { result ≡ origin_found line }
{
    match line {
        Some(i) => Origin::Line(i),
        None => Origin::Unknown,
    }
}

// Reads the piece at the front of an unread rule.
fn read_piece(s: &[u8], lines: &[PassedLine]) -> PieceRead
    requires { 1 ≤ length s.now }
    ensures { Taken lines.now s.now result }
{
    if s[0] == OPEN {
        if let Some(name) = read_name(&s[1..], CLOSE) {
            return PieceRead {
                byte: OPERAND,
                origin: origin_of(find(lines, name)),
                length: name.len() + 2,
            };
        }
    }
    PieceRead {
        byte: s[0],
        origin: Origin::Own,
        length: 1,
    }
}

// Writes the shape of a rule.
pub fn cut(s: &[u8], lines: &[PassedLine]) -> Shape
    requires { length s.now ≤ 255 }
    ensures { Cut lines.now s.now result }
{
    let mut shape = Shape {
        bytes: [0; 255],
        origins: [Origin::Own; 255],
        n: 0,
    };
    let mut rest = s;
    while !rest.is_empty() {
        let piece = read_piece(rest, lines);
        shape.push(piece);
        rest = &rest[piece.length..];
    }
    shape
}
