// Texts: the byte at an index, and the end of a line.
ghost use Rattle.std.specs.Prelude.{◌≡◌, get_or};
ghost use Rattle.event.specs.Leading.{leading};
ghost use Rattle.event.specs.Text.{not_newline};

// The byte at an index; 0, which no tag, separator or sign is, where the text has ended.
pub fn byte_at(s: &[u8], i: usize) -> u8
    ensures { result ≡ get_or s.now i 0 }
{
    s.get(i).copied().unwrap_or(0)
}

// The offset of the first newline, or the length where there is none: a number, as docs/PROMISES.md names it.
#[tactic(auto, unfolding(crate::specs::Leading::leading))]
pub fn find_newline(s: &[u8]) -> usize
    ensures { result ≡ leading not_newline s.now }
{
    s.iter().take_while(|b| **b != b'\n').count()
}
