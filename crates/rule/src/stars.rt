// Stars directly after a star.
ghost use Rattle.std.specs.Prelude.{◌≡◌};
ghost use Rattle.event.specs.Leading.{place_in};
ghost use Rattle.expression.specs.StarsComputed.{doubles, double_at};

// Whether a byte is a star, and so is the byte before it.
pub fn is_double(before: u8, b: u8) -> bool
    ensures { result ≡ doubles before b }
{
    before == b'*' && b == b'*'
}

// The offset of the first star directly after a star, if there is one.
pub fn find_double(text: &[u8]) -> Option<usize>
    ensures { result ≡ place_in text.now (double_at text.now) }
{
    let mut before = 0;
    for (i, b) in text.iter().enumerate() {
        if is_double(before, *b) {
            return Some(i);
        }
        before = *b;
    }
    None
}
