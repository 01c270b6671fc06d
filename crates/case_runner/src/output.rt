// Prints bytes and numbers, these as the checker writes them. A write that fails is let go.

use std::io::Write;

pub fn print<W: Write>(out: &mut W, text: &[u8]) {
    let _ = out.write_all(text);
}

// A number's digits.
pub fn print_decimal<W: Write>(out: &mut W, x: u64) {
    print(out, decimal::digits_of(x).as_slice());
}

// A number behind a sign.
pub fn print_number<W: Write>(out: &mut W, sign: u8, n: usize) {
    print(out, &[sign]);
    print_decimal(out, n as u64);
}
