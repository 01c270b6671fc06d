// Sets of letters, as the bits of a number: A to Z are bits 0 to 25, a to z bits 26 to 51.
ghost use Rattle.std.specs.Prelude.{◌≡◌, ◌≤◌, ◌<◌};
ghost use Rattle.event.specs.LetterSets.{bit_of, none, plus, single, every};
ghost use Rattle.event.specs.SetParts.{letter_at, NextIndex};

// The bits of all 52 letters.
pub const EVERY: u64 = 4503599627370495;

#[derive(Clone, Copy, PartialEq, Eq)]
pub struct LetterSet {
    pub bits: u64,
}

impl LetterSet {
    // The set without letters.
    pub fn none() -> LetterSet
        ensures { result ≡ none }
    {
        LetterSet { bits: 0 }
    }

    // The set of all 52 letters.
    pub fn every() -> LetterSet
        ensures { result ≡ every }
    {
        LetterSet { bits: EVERY }
    }

    // The set of one letter.
    pub fn single(b: u8) -> LetterSet
        ensures { result ≡ single b }
    {
        LetterSet::none().plus(b)
    }

    // The set with one letter more.
    pub fn plus(self, b: u8) -> LetterSet
        ensures { result ≡ plus self b }
    {
        LetterSet {
            bits: self.bits | bit_of(b),
        }
    }
}

// The bit of a letter; a byte that is no letter has none.
#[tactic(auto, unfolding(crate::specs::Event::is_event, crate::specs::LetterSets::bit_of))]
fn bit_of(b: u8) -> u64
    ensures { result ≡ bit_of b }
{
    match b {
        b'A'..=b'Z' => bits::one((b - b'A') as usize),
        b'a'..=b'z' => bits::one((b - b'a') as usize + 26),
        _ => 0,
    }
}

// The letter at an index.
pub fn letter_at(index: usize) -> u8
    requires { index < 52 }
    ensures { result ≡ letter_at index }
{
    if index < 26 {
        b'A' + (index as u8)
    } else {
        b'a' + ((index - 26) as u8)
    }
}

// The first index from a given one on whose bit the set has.
pub fn next_index(set: LetterSet, from: usize) -> Option<usize>
    requires { from ≤ 52 }
    ensures { NextIndex set from result }
{
    bits::first(set.bits, bits::one(from) - 1)
}
