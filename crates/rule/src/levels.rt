// The recursive reader: one method for each level of the grammar. It runs on sentences of at most 64 nodes, which the scan has found.
ghost use Rattle.std.specs.Prelude.{◌≡◌, ◌+◌, ◌≤◌, length};
ghost use Rattle.expression.specs.Parse.{alt, conj, seq, pre, post, atom};
ghost use Rattle.rule.specs.Reader.{at, pushed, moved, Done, Readable, nodes_read};

use crate::bytes::is_start;
use crate::leaf::read_leaf;
use event::text::byte_at;
use expression::{Kind, Node};

// The records, how many are written, and the offset at which the unread text begins. The levels lend it on: records by value in every
// frame of the recursion would take megabytes of stack.
#[derive(Clone, Copy)]
pub struct Reader {
    pub nodes: [Node; 64],
    pub written: usize,
    pub offset: usize,
}

// Reads a sentence into its records.
pub fn read_text(text: &[u8]) -> [Node; 64]
    requires { (length text.now ≤ 255) × Readable text.now }
    ensures { result ≡ nodes_read text.now }
{
    let none = Node {
        offset: 0,
        kind: Kind::Empty,
    };
    let mut reader = Reader {
        nodes: [none; 64],
        written: 0,
        offset: 0,
    };
    reader.read_alt(text);
    reader.nodes
}

// What each level asks is of the reader and the text together, so that no type keeps it.
impl Reader {
    // Writes one record more, where there is room.
    fn push(&mut self, offset: usize, kind: Kind)
        ensures { at self.new ≡ pushed (at self.old) offset kind }
    {
        let n = self.written;
        if n < 64 {
            self.nodes[n] = Node { offset, kind };
            self.written = n + 1;
        }
    }

    // Goes on over some bytes.
    fn skip(&mut self, width: usize)
        requires { self.old.offset + width ≤ 255 }
        ensures { at self.new ≡ moved (at self.old) width }
    {
        self.offset += width;
    }

    // Alternatives: what stands between the `|`, from the left.
    #[cycle(levels)]
    fn read_alt(&mut self, s: &[u8])
        requires { self.old.offset + length s.now ≤ 255 }
        ensures { Done alt s.now (at self.old) (at self.new) }
    {
        let start = self.offset;
        self.read_conj(s);
        let mut n = self.offset - start;
        while byte_at(&s[n..], 0) == b'|' {
            let offset = self.offset;
            self.skip(1);
            self.read_conj(&s[n + 1..]);
            self.push(offset, Kind::Union);
            n = self.offset - start;
        }
    }

    // What stands between the `&`, from the left.
    #[cycle(levels)]
    fn read_conj(&mut self, s: &[u8])
        requires { self.old.offset + length s.now ≤ 255 }
        ensures { Done conj s.now (at self.old) (at self.new) }
    {
        let start = self.offset;
        self.read_seq(s);
        let mut n = self.offset - start;
        while byte_at(&s[n..], 0) == b'&' {
            let offset = self.offset;
            self.skip(1);
            self.read_seq(&s[n + 1..]);
            self.push(offset, Kind::Intersection);
            n = self.offset - start;
        }
    }

    // A concatenation: operands one after another, from the left.
    #[cycle(levels)]
    fn read_seq(&mut self, s: &[u8])
        requires { self.old.offset + length s.now ≤ 255 }
        ensures { Done seq s.now (at self.old) (at self.new) }
    {
        let start = self.offset;
        self.read_pre(s);
        let mut n = self.offset - start;
        while is_start(byte_at(&s[n..], 0)) {
            let offset = self.offset;
            self.read_pre(&s[n..]);
            self.push(offset, Kind::Concatenation);
            n = self.offset - start;
        }
    }

    // An operand with what stands in front of it.
    #[cycle(levels)]
    fn read_pre(&mut self, s: &[u8])
        requires { self.old.offset + length s.now ≤ 255 }
        ensures { Done pre s.now (at self.old) (at self.new) }
    {
        if byte_at(s, 0) == b'!' {
            let start = self.offset;
            self.skip(1);
            self.read_pre(&s[1..]);
            self.push(start, Kind::Complement);
        } else {
            self.read_post(s);
        }
    }

    // An operand with the stars behind it.
    #[cycle(levels)]
    fn read_post(&mut self, s: &[u8])
        requires { self.old.offset + length s.now ≤ 255 }
        ensures { Done post s.now (at self.old) (at self.new) }
    {
        let start = self.offset;
        self.read_atom(s);
        let mut n = self.offset - start;
        while byte_at(&s[n..], 0) == b'*' {
            let offset = self.offset;
            self.push(offset, Kind::Star);
            self.skip(1);
            n = self.offset - start;
        }
    }

    // A leaf, or alternatives in parentheses.
    #[cycle(levels)]
    fn read_atom(&mut self, s: &[u8])
        requires { self.old.offset + length s.now ≤ 255 }
        ensures { Done atom s.now (at self.old) (at self.new) }
    {
        let start = self.offset;
        if byte_at(s, 0) == b'(' {
            self.skip(1);
            self.read_alt(&s[1..]);
            if self.offset - start < s.len() {
                self.skip(1);
            }
        } else if !s.is_empty() {
            let leaf = read_leaf(s);
            self.push(start, leaf.kind);
            self.skip(leaf.width);
        }
    }
}
