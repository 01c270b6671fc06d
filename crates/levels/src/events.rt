// Events: an event leads from the entries of the nodes that fit it to their exits, which are the next states.
ghost use Rattle.std.specs.Prelude.{◌≡◌, false, ◌<◌};
ghost use Rattle.bits.specs.Bit.{has_bit};
ghost use Rattle.levels.specs.Sets.{Exactly, LetterEntries, LetterExit};
ghost use Rattle.levels.specs.Private.{MovedUp};

use crate::States;

// Moves each bit up by one.
pub fn move_up(x: u64) -> u64
    requires { has_bit 63 x ≡ false }
    ensures { MovedUp x result }
{
    2 * x
}

// The exits of the nodes that fit the event and whose entries are in the set.
pub fn next(letters: &[u64; 512], set: &States, event: usize) -> States
    requires event_bound { event < 256 }
    requires letter { LetterEntries letters.now }
    ensures { Exactly (LetterExit letters.now set.now event) result }
{
    [
        move_up(set[0] & letters[2 * event]),
        move_up(set[1] & letters[2 * event + 1]),
    ]
}
