// The events of two days, stored as those of one.
ghost use Rattle.std.specs.Prelude.{◌≡◌, ◌∷◌, map, ◌+◌, ◌≤◌, length};
ghost use Rattle.std.proofs.lemmas.List.Edits.{sets};
ghost use Rattle.day.specs.DayFile.{letter_of, second_of};
ghost use Rattle.merge.specs.MergeComputed.{joined, paired, event, first_is_next, Aligned};

// A day's events, or what is left of them: as many letters as seconds.
#[derive(Clone, Copy)]
pub struct Day<'a> {
    pub letters: &'a [u8],
    pub seconds: &'a [u32],
    ghost aligned: { Aligned letters.now seconds.now },
}

impl<'a> Day<'a> {
    // Takes the first event, its letter and its second, from the day.
    fn take(&mut self) -> (u8, u32)
        requires { 1 ≤ length self.old.letters.now }
        ensures { paired self.old.letters.now self.old.seconds.now
            ≡ event result.1 result.0 ∷ paired self.new.letters.now self.new.seconds.now }
    {
        let first = (self.letters[0], self.seconds[0]);
        *self = Day {
            letters: &self.letters[1..],
            seconds: &self.seconds[1..],
        };
        first
    }
}

// Whether the next event is the first file's, by the seconds that are left of each file.
fn first_is_next(seconds1: &[u32], seconds2: &[u32]) -> bool
    ensures { result ≡ first_is_next seconds1.now seconds2.now }
{
    match (seconds1.first(), seconds2.first()) {
        (Some(second1), Some(second2)) => second1 <= second2,
        (left1, _) => left1.is_some(),
    }
}

// Takes the next event of the one day from the file whose it is.
fn take_next(first: &mut Day, second: &mut Day) -> (u8, u32)
    requires { 1 ≤ length first.old.letters.now + length second.old.letters.now }
    ensures { joined (paired first.old.letters.now first.old.seconds.now) (paired second.old.letters.now second.old.seconds.now)
        ≡ event result.1 result.0 ∷ joined (paired first.new.letters.now first.new.seconds.now)
        (paired second.new.letters.now second.new.seconds.now) }
{
    if first_is_next(first.seconds, second.seconds) {
        first.take()
    } else {
        second.take()
    }
}

// Stores the events of both days, in the order of the one day.
pub fn fill(first: Day, second: Day, letters: &mut [u8], seconds: &mut [u32])
    requires { (length first.letters.now + length second.letters.now ≤ length letters.old)
        × (length first.letters.now + length second.letters.now ≤ length seconds.old) }
    ensures letters_after { letters.new ≡ sets letters.old 0 (map letter_of
        (joined (paired first.entry.letters.now first.entry.seconds.now) (paired second.entry.letters.now second.entry.seconds.now))) }
    ensures seconds_after { seconds.new ≡ sets seconds.old 0 (map second_of
        (joined (paired first.entry.letters.now first.entry.seconds.now) (paired second.entry.letters.now second.entry.seconds.now))) }
{
    let n = first.letters.len() + second.letters.len();
    let mut left1 = first;
    let mut left2 = second;
    for i in 0..n {
        let (letter, second) = take_next(&mut left1, &mut left2);
        letters[i] = letter;
        seconds[i] = second;
    }
}
