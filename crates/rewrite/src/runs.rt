// The new text: all bytes but the stars directly after a star.
ghost use Rattle.std.specs.Prelude.{◌≡◌, ◌++◌, ◌≤◌, length, drop};
ghost use Rattle.rewrite.specs.Rewritten.{rewritten};

use rule::stars::is_double;

// The length of the new text.
pub fn new_length(text: &[u8]) -> usize
    ensures { result ≡ length (rewritten text.now) }
{
    let mut before = 0;
    let mut n = 0;
    for &b in text {
        if !is_double(before, b) {
            n += 1;
        }
        before = b;
    }
    n
}

// Writes the new text to the front of a buffer, and leaves the rest. It walks as `new_length` does: of one walk with a closure that changes
// what it captures a proof would know nothing.
pub fn fill(text: &[u8], out: &mut [u8])
    requires { length (rewritten text.now) ≤ length out.old }
    ensures { out.new
        ≡ rewritten text.now ++ drop (length (rewritten text.now)) out.old }
{
    let mut before = 0;
    let mut n = 0;
    for &b in text {
        if !is_double(before, b) {
            out[n] = b;
            n += 1;
        }
        before = b;
    }
}
