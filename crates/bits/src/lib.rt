// Bits of 64-bit numbers, and of runs of them: bit p of a run is bit p % 64 of its number p / 64.
#![tactic(auto)]

ghost use Rattle.std.specs.Prelude.{◌≡◌, ◌+◌, ◌*◌, ◌/◌, ◌%◌, ◌^◌, ◌<◌, ◌≤◌, length};
ghost use Rattle.bits.specs.Bit.{has_bit, bit_at, ones_of};
ghost use Rattle.bits.specs.Runs.{joined, Put, Adds, RowOf, InRow, First, FirstMissing, Merged};

// Whether bit b of x is set.
#[tactic(auto, unfolding(crate::specs::Bit::has_bit))]
fn has(x: u64, b: usize) -> bool
    requires { b < 64 }
    ensures { result ≡ has_bit b x }
{
    (x >> b) % 2 == 1
}

// Bit b alone.
pub fn one(b: usize) -> u64
    requires { b < 64 }
    ensures { result ≡ 2 ^ b }
{
    1u64 << b
}

// Whether bit p of the run is set.
#[tactic(auto, unfolding(crate::specs::Bit::bit_at))]
pub fn test(a: &[u64], p: usize) -> bool
    requires { p < 64 * length a.now }
    ensures { result ≡ bit_at a.now p }
{
    let w = p / 64;
    has(a[w], p % 64)
}

// Joins the bits of x to number i of the run.
pub fn merge(a: &mut [u64], i: usize, x: u64)
    requires { i < length a.old }
    ensures value { a.new ≡ joined a.old i x }
    ensures bits { Merged a.old i x a.new }
{
    a[i] |= x;
}

// Sets bit p of the run, and no other.
#[tactic(auto, using(crate::proofs::Laws::merged_put))]
pub fn put(a: &mut [u64], p: usize)
    requires { p < 64 * length a.old }
    ensures value { a.new ≡ joined a.old (p / 64) (2 ^ (p % 64)) }
    ensures bits { Put a.old p a.new }
{
    merge(a, p / 64, one(p % 64));
}

// Sets bit p of a run of two numbers, and no other; each is reached by a constant, which keeps the two out of memory.
pub fn put_in_two(a: &mut [u64; 2], p: usize)
    requires { p < 128 }
    ensures { Put a.old p a.new }
{
    if p < 64 {
        merge(a, 0, one(p));
        return;
    }
    merge(a, 1, one(p - 64));
}

// Row k of a run: its numbers 2 * k and 2 * k + 1.
pub fn row(a: &[u64], k: usize) -> [u64; 2]
    requires { 2 * k + 1 < length a.now }
    ensures { RowOf a.now k result }
{
    [a[2 * k], a[2 * k + 1]]
}

// Adds the bits of two numbers to row k of a run.
pub fn merge_row(a: &mut [u64], k: usize, row: &[u64; 2])
    requires { 2 * k + 1 < length a.old }
    ensures { Adds a.old (InRow k row.now) a.new }
{
    merge(a, 2 * k, row[0]);
    merge(a, 2 * k + 1, row[1]);
}

// The lowest bit that x has and y lacks.
#[tactic(auto, using(crate::proofs::Digits::none_lacks, crate::proofs::Digits::lowest_law))]
pub fn first(x: u64, y: u64) -> Option<usize>
    ensures { First x y result }
{
    let missing = x & !y;
    if missing == 0 {
        return None;
    }
    Some(missing.trailing_zeros() as usize)
}

// A bit that a run of two numbers has and another lacks: the lowest.
pub fn find_missing(a: &[u64; 2], b: &[u64; 2]) -> Option<usize>
    ensures { FirstMissing a.now b.now result }
{
    if let Some(p) = first(a[0], b[0]) {
        return Some(p);
    }
    let p = first(a[1], b[1])?;
    Some(64 + p)
}

// The number of ones in a run; the bound on its length keeps the sum far below 64 bits.
#[tactic(auto, unfolding(crate::specs::Bit::ones_of))]
pub fn count(a: &[u64]) -> u64
    requires { length a.now ≤ 65536 }
    ensures { result ≡ ones_of a.now }
{
    let mut sum: u64 = 0;
    for x in a {
        sum += u64::from(x.count_ones());
    }
    sum
}
