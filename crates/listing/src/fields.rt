// Lines of decimal fields, measured, and written one behind another to a buffer.
ghost use Rattle.std.specs.Prelude.{◌≡◌, [], ◌∷◌, ◌+◌, ◌*◌, ◌≤◌, length};
ghost use Rattle.listing.specs.Lines.{field, line};
ghost use Rattle.listing.specs.Writing.{HasRoom, Puts};

// A buffer that is being written: the next byte goes to the offset `at`.
#[derive(Drop)]
pub struct Writer<'a> {
    pub out: &'a mut [u8],
    pub at: usize,
}

impl<'a> Writer<'a> {
    // Writes a byte behind what is written.
    #[inline(always)]
    fn put(&mut self, byte: u8)
        requires { HasRoom self.old (byte ∷ []) }
        ensures { Puts self.old (byte ∷ []) self.new }
    {
        self.out[self.at] = byte;
        self.at += 1;
    }

    // Writes a tab and a number, digit by digit: they are so few that to copy them all at once takes longer.
    #[inline(always)]
    fn put_field(&mut self, x: u64)
        requires { HasRoom self.old (field x) }
        ensures { Puts self.old (field x) self.new }
    {
        self.put(b'\t');
        let digits = decimal::digits_of(x);
        for digit in digits.as_slice() {
            self.put(*digit);
        }
    }

    // Writes a line: its letter, and its fields. Inlined, since a long list has 32,896 lines, and a writer that is lent stands in memory.
    #[inline(always)]
    pub fn put_line(&mut self, letter: u8, fields: &[u64])
        requires { HasRoom self.old (line letter fields.now) }
        ensures { Puts self.old (line letter fields.now) self.new }
    {
        self.put(letter);
        for x in fields {
            self.put_field(*x);
        }
        self.put(b'\n');
    }
}

// The length of a line of a few fields.
pub fn line_length(fields: &[u64]) -> usize
    requires { length fields.now ≤ 5 }
    ensures { (letter : _) → result ≡ length (line letter fields.now) }
{
    let mut sum = 2;
    for x in fields {
        sum += 1 + decimal::width(*x);
    }
    sum
}
