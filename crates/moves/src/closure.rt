// The closure of the free moves, row by row, in place: bit 128 * s + t is the pair of s and t.
ghost use Rattle.std.specs.Prelude.{List, ℕ, ◌+◌, ◌<◌, ◌≤◌};
ghost use Rattle.bits.specs.Runs.{Adds};
ghost use Rattle.moves.specs.Moves.{Closed};
ghost use Rattle.moves.specs.Closing.{Through, Followed, Completed, OnDiagonal, LeaveBelow};

// Merges row k into row s.
fn merge_row(c: &mut [u64; 256], s: usize, k: usize)
    requires { (s < 128) × (k < 128) }
    ensures { Adds c.old (Through c.old s k) c.new }
{
    let row = bits::row(c, k);
    bits::merge_row(c, s, &row);
}

// Marks that row s has what k leads to: k is followed, and, as the rows before s are complete, with a row before s all its states are.
fn mark_followed(c: &[u64; 256], s: usize, k: usize, followed: &mut [u64; 2])
    requires { k < 128 }
    ensures { Adds followed.old (Followed c.now s k) followed.new }
{
    bits::put_in_two(followed, k);
    if k < s {
        bits::merge_row(followed, 0, &bits::row(c, k));
    }
}

// Completes row s, where the rows before it are complete: the states that it has are followed until they lead to no other.
fn complete(c: &mut [u64; 256], s: usize)
    requires { s < 128 }
    ensures { (m : List ℕ) → Completed m s c.old → Completed m (s + 1) c.new }
{
    let mut followed = [0u64; 2];
    while let Some(k) = bits::find_missing(&bits::row(c, s), &followed) {
        merge_row(c, s, k);
        mark_followed(c, s, k, &mut followed);
    }
}

// Pairs each state with itself.
fn diagonal(c: &mut [u64; 256])
    ensures { Adds c.old (OnDiagonal 128) c.new }
{
    for s in 0..128 {
        bits::put(c, 129 * s);
    }
}

// Closes the free moves, all of which leave states below n: afterwards row s has the states that free moves lead to from s.
pub fn close(c: &mut [u64; 256], n: usize)
    requires { (n ≤ 128) × LeaveBelow n c.old }
    ensures { Closed c.old c.new }
{
    diagonal(c);
    for s in 0..n {
        complete(c, s);
    }
}
