// Where the bits of spans stand in the span table: the rows of a block, read and written as four numbers, bit k for the span to number k.
#![tactic(auto)]

ghost use Rattle.std.specs.Prelude.{◌≡◌, true, ℕ, ◌<◌, ◌≤◌, length};
ghost use Rattle.bits.specs.Bit.{bit_at};
ghost use Rattle.bits.specs.Runs.{Adds};
ghost use Rattle.work.specs.Table.{block_length};
ghost use Rattle.table.specs.Layout.{Lies, row_bit, RowSpan, Cleared};

// A block of the table: its first number, and the length of the word.
#[derive(Clone, Copy)]
pub struct Block {
    pub first: usize,
    pub n: usize,
}

// The numbers of a block for a word of n events.
pub fn block_length(n: usize) -> usize
    requires { n ≤ 255 }
    ensures { (result ≡ block_length n) × (result ≤ 1024) }
{
    (n + 1) * 4
}

// That a block lies in a table is asked at each call: it is a fact of both, and the table is lent.
impl Block {
    // Clears the block.
    pub fn clear(self, table: &mut [u64])
        requires { Lies self (length table.old) }
        ensures { Cleared table.old self table.new }
    {
        table[self.first..self.first + block_length(self.n)].fill(0);
    }

    // Row i of the block.
    pub fn read_row(self, table: &[u64], i: usize) -> [u64; 4]
        requires lies { Lies self (length table.now) }
        requires i_le_n { i ≤ self.n }
        ensures { (k : ℕ) → k < 256 → bit_at result k ≡ row_bit table.now self i k }
    {
        let at = self.first + 4 * i;
        [table[at], table[at + 1], table[at + 2], table[at + 3]]
    }

    // Adds the spans of a row to row i of the block.
    pub fn add_row(self, table: &mut [u64], i: usize, row: &[u64; 4])
        requires lies { Lies self (length table.old) }
        requires i_le_n { i ≤ self.n }
        requires by_index { (k : ℕ) → bit_at row.now k ≡ true → (i ≤ k) × (k ≤ self.n) }
        ensures { Adds table.old (RowSpan self i row.now) table.new }
    {
        let at = self.first + 4 * i;
        for h in 0..4 {
            bits::merge(table, at + h, row[h]);
        }
    }
}
