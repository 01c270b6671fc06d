// Free moves, which are closed: one look at a state's row leads to all that it leads to.
ghost use Rattle.std.specs.Prelude.{◌<◌};
ghost use Rattle.bits.specs.Runs.{Adds};
ghost use Rattle.levels.specs.Sets.{Reflexive, Transitive, AllLed};
ghost use Rattle.levels.specs.Private.{LedTo, FollowedWord};

use crate::States;

// Adds to the set the states that s leads to.
pub fn lead(closed: &[u64; 256], s: usize, set: &mut States)
    requires { s < 128 }
    ensures { Adds set.old (LedTo closed.now s) set.new }
{
    bits::merge_row(set, 0, &bits::row(closed, s));
}

// Adds to the set what the states of number w of todo lead to.
fn follow_word(closed: &[u64; 256], todo: &States, set: &mut States, w: usize)
    requires w_bound { w < 2 }
    requires reflexive { Reflexive closed.now }
    ensures { FollowedWord closed.now todo.now w set.old set.new }
{
    let wanted = todo[w];
    let mut done = set[w];
    while let Some(b) = bits::first(wanted, done) {
        done |= bits::one(b);
        lead(closed, 64 * w + b, set);
    }
}

// The states that those of todo lead to.
pub fn follow(closed: &[u64; 256], todo: &States) -> States
    requires reflexive { Reflexive closed.now }
    requires transitive { Transitive closed.now }
    ensures { AllLed closed.now todo.now result }
{
    let mut set = [0; 2];
    follow_word(closed, todo, &mut set, 0);
    follow_word(closed, todo, &mut set, 1);
    set
}
