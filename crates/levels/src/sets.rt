// What two sets of states have in common.
ghost use Rattle.std.specs.Prelude.{◌≡◌, false, ◌↔◌};
ghost use Rattle.levels.specs.Sets.{Disjoint};
ghost use Rattle.levels.specs.Private.{Common};

use crate::States;

// The states that both sets have.
pub fn intersect(a: &States, b: &States) -> States
    ensures { Common a.now b.now result }
{
    [a[0] & b[0], a[1] & b[1]]
}

// Whether the sets have a state in common.
pub fn meets(a: &States, b: &States) -> bool
    ensures { (result ≡ false) ↔ Disjoint a.now b.now }
{
    (a[0] & b[0]) | (a[1] & b[1]) != 0
}
