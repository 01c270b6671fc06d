// Numbers as decimal text.
#![tactic(auto)]

ghost use Rattle.std.specs.Prelude.{◌≡◌, ◌++◌, ◌+◌, ◌-◌, ◌/◌, ◌%◌, ◌<◌, ◌≤◌, length, take, replicate};
ghost use Rattle.decimal.specs.Numeral.{Numeral};
ghost use Rattle.decimal.specs.Decimal.{decimal};
ghost use Rattle.decimal.specs.Powers.{Powers};

// The most digits of a 64-bit number.
const MOST_DIGITS: usize = 20;

// The powers of ten that are 64-bit numbers. Nothing reads the first: it is there so that entry i is ten to the power i.
const POWERS: [u64; MOST_DIGITS] = [
    1,
    10,
    100,
    1000,
    10000,
    100000,
    1000000,
    10000000,
    100000000,
    1000000000,
    10000000000,
    100000000000,
    1000000000000,
    10000000000000,
    100000000000000,
    1000000000000000,
    10000000000000000,
    100000000000000000,
    1000000000000000000,
    10000000000000000000,
];

// A number's digits: the first `len` of the bytes; the others are 0. There is no heap, so the room is fixed.
#[derive(Clone, Copy)]
pub struct Digits {
    pub bytes: [u8; MOST_DIGITS],
    pub len: usize,
    ghost within: { len ≤ 20 },
}

impl Digits {
    // The digits alone.
    pub fn as_slice(&self) -> &[u8]
        ensures { result.now ≡ take self.now.len self.now.bytes }
    {
        &self.bytes[..self.len]
    }
}

// One digit of a number, and what is left of the number behind it.
#[derive(Clone, Copy)]
struct Step {
    digit: u8,
    rest: u64,
}

// The table. Functions ask for it once, before their loops: the compiler stores it anew wherever the constant is named.
fn powers_of_ten() -> [u64; MOST_DIGITS]
    ensures { Powers result }
{
    POWERS
}

// How many digits write x: one, and one more for each power from ten on that is not above x.
pub fn width(x: u64) -> usize
    ensures { result ≡ length (decimal x) }
{
    let powers = powers_of_ten();
    1 + powers[1..].iter().take_while(|power| **power <= x).count()
}

// The digit of x at a power of ten, where x is below ten times the power: how often the power can be subtracted: no number
// is divided.
fn digit_step(x: u64, power: u64) -> Step
    requires { (0 < power) × (x / power < 10) }
    ensures { (result.digit ≡ 48 + x / power) × (result.rest ≡ x % power) }
{
    let mut digit = b'0';
    let mut rest = x;
    while power <= rest {
        rest -= power;
        digit += 1;
    }
    Step { digit, rest }
}

// The digits of x, without leading zeros.
pub fn digits_of(x: u64) -> Digits
    ensures value { (result.bytes ≡ decimal x ++ replicate (20 - length (decimal x)) 0) × (result.len ≡ length (decimal x)) }
    ensures meaning { Numeral (take result.len result.bytes) x }
{
    let powers = powers_of_ten();
    let len = width(x);
    let last = len - 1;
    let mut bytes = [0u8; MOST_DIGITS];
    let mut rest = x;
    for i in 0..last {
        let step = digit_step(rest, powers[last - i]);
        bytes[i] = step.digit;
        rest = step.rest;
    }
    // what is left is below ten
    bytes[last] = b'0' + (rest as u8);
    Digits { bytes, len }
}
