// Prints rows of numbers.
ghost use Rattle.std.specs.Prelude.{◌+◌, ◌^◌, ◌≤◌};

use crate::output::{print, print_decimal, print_number};
use std::io::Write;

// A number's digits and its width.
fn print_with_width<W: Write>(out: &mut W, x: u64) {
    print_decimal(out, x);
    print_number(out, b':', decimal::width(x));
}

// Prints the numbers from `first` on, as many as `count` says, with a comma between; a dash where there are none.
pub fn answer_numbers<W: Write>(out: &mut W, first: u64, count: usize)
    requires { first + count ≤ 2 ^ 64 }
{
    print(out, b"numbers\t");
    if count == 0 {
        print(out, b"-");
    }
    for i in 0..count {
        if 0 < i {
            print(out, b",");
        }
        print_with_width(out, first + (i as u64));
    }
    print(out, b"\n");
}
