// Exits to come: bit 256 * i + k where node i is left at number k.
ghost use Rattle.std.specs.Prelude.{◌≡◌, ◌+◌, ◌*◌, ◌/◌, ◌%◌, ◌<◌, ◌≤◌};
ghost use Rattle.levels.specs.Sets.{Exactly, Entries};
ghost use Rattle.levels.specs.Private.{ExitOf, Gap, PutFull, kept_if, RowJoined};

use crate::States;
use crate::events::move_up;

// The exits of the entries of a set.
pub fn exits_of(entries: &States) -> States
    requires { Entries entries.now }
    ensures { Exactly (ExitOf entries.now) result }
{
    [move_up(entries[0]), move_up(entries[1])]
}

// The first number from k on at which node i is not left.
fn gap(exits: &[u64; 256], i: usize, k: usize) -> Option<usize>
    requires { (i < 64) × (k ≤ 256) }
    ensures { Gap exits.now i k result }
{
    // The numbers below k pass for set.
    let mut below = bits::one(k % 64) - 1;
    for w in k / 64..4 {
        if let Some(b) = bits::first(u64::MAX, exits[4 * i + w] | below) {
            return Some(64 * w + b);
        }
        below = 0;
    }
    None
}

// Adds the entry s to the full ones, if its node is left at every number from k to n.
pub fn put_full(exits: &[u64; 256], full: &mut States, s: usize, k: usize, n: usize)
    requires exits_len { (s < 128) × (k ≤ 256) × (n < 256) }
    requires s_value { s % 2 ≡ 0 }
    ensures { PutFull exits.now s k n full.old full.new }
{
    if let Some(g) = gap(exits, s / 2, k) {
        if g <= n {
            return;
        }
    }
    bits::put_in_two(full, s);
}

// What is kept of a number: all, or nothing.
fn kept(x: u64, keep: bool) -> u64
    ensures { result ≡ kept_if keep x }
{
    if keep { x } else { 0 }
}

// Joins a row to what node i is to be left at; where it is not open yet, what stands there says nothing.
pub fn join_row(exits: &mut [u64; 256], row: &[u64; 4], i: usize, keep: bool)
    requires { i < 64 }
    ensures { RowJoined keep row.now i exits.old exits.new }
{
    for w in 0..4 {
        exits[4 * i + w] = kept(exits[4 * i + w], keep) | row[w];
    }
}
