// The row of a start: bit k for the span to number k.
ghost use Rattle.std.specs.Prelude.{◌≡◌, ℕ, ◌+◌, ◌*◌, ◌<◌, ◌≤◌, max, min, length, ltb};
ghost use Rattle.bits.specs.Bit.{bit_at};
ghost use Rattle.bits.specs.Runs.{indicator};
ghost use Rattle.marks.specs.Marks.{EndsBefore};
ghost use Rattle.marks.specs.Rows.{met, met_from, row_of, Shows};

use crate::Marks;
use crate::target::Target;

// The numbers below k, as bits: the w-th 64 of them.
#[tactic(auto, using(crate::proofs::RowLaws::below_none, crate::proofs::RowLaws::below_all, crate::proofs::RowLaws::below_some))]
fn below(w: usize, k: usize) -> u64
    requires { w < 4 }
    ensures { Shows (λ (m : ℕ). ltb m k) w result }
{
    if k <= 64 * w {
        return 0;
    }
    if 64 * w + 64 <= k {
        return u64::MAX;
    }
    bits::one(k - 64 * w) - 1
}

impl Marks {
    // 1 where the state x is marked at number k, else 0.
    #[tactic(auto, using(crate::proofs::RowLaws::marked_law))]
    fn bit(&self, k: usize, x: usize) -> u64
        requires { (k < 256) × (x < 128) }
        ensures { result ≡ indicator (bit_at self.now.places (128 * k + x)) }
    {
        (self.places[2 * k + x / 64] >> (x % 64)) % 2
    }

    // 1 where both exits are marked at number k, else 0: a number and no test, so that a loop over k has no branch to guess.
    fn both(&self, target: Target, k: usize) -> u64
        requires { k < 256 }
        ensures { result ≡ indicator (met self.now.places target k) }
    {
        self.bit(k, target.left) & self.bit(k, target.right)
    }

    // The numbers from i on at which both exits are marked, as bits: the w-th 64 of them. From end on nothing is marked, and so nothing is
    // read.
    fn gather(&self, target: Target, w: usize, i: usize, end: usize) -> u64
        requires bounds { (end ≤ 256) × (w < 4) }
        requires ends_before { EndsBefore self.now.places end }
        ensures { Shows (met_from self.now.places target i) w result }
    {
        let mut row = 0u64;
        for k in i.max(64 * w)..end.min(64 * w + 64) {
            row |= self.both(target, k) << (k % 64);
        }
        row
    }

    // Number w of the row of start i. A complement's row has those numbers from i to n that its walk did not end at.
    fn row_word(&self, target: Target, w: usize, i: usize, end: usize, n: usize) -> u64
        requires bounds { (w < 4) × (i ≤ n) × (n ≤ 255) × (end ≤ n + 1) }
        requires ends_before { EndsBefore self.now.places end }
        ensures { Shows (row_of self.now.places target i n) w result }
    {
        let row = self.gather(target, w, i, end);
        if target.complement {
            return row ^ (below(w, n + 1) ^ below(w, i));
        }
        row
    }

    // The row of start i, whose walk left the marks; from end on nothing is marked.
    pub fn row_of(&self, target: Target, i: usize, end: usize, n: usize) -> [u64; 4]
        requires bounds { (i ≤ n) × (n ≤ 255) × (end ≤ n + 1) }
        requires ends_before { EndsBefore self.now.places end }
        ensures { (k : ℕ) → k < 256 → bit_at result k ≡ row_of self.now.places target i n k }
    {
        [
            self.row_word(target, 0, i, end, n),
            self.row_word(target, 1, i, end, n),
            self.row_word(target, 2, i, end, n),
            self.row_word(target, 3, i, end, n),
        ]
    }
}
