// The first number of each special node's block: the blocks stand one after another by rising byte offset.
ghost use Rattle.std.specs.Prelude.{◌≡◌, ◌^◌, ◌≤◌, replicate};
ghost use Rattle.owners.specs.Blocks.{specials_before, FirstNumbers};

use expression::records::Records;
use moves::is_special;

// The number of special nodes with an offset below `bound`.
fn specials_before(records: &Records, bound: usize) -> usize
    ensures { (result ≡ specials_before records.now.nodes bound records.now.m) × (result ≤ 64) }
{
    let mut count = 0;
    for node in &records.nodes[..records.m] {
        if is_special(node.kind) && node.offset < bound {
            count += 1;
        }
    }
    count
}

// Fills in the first number of each special node's block for a word of n events, where the first of the blocks begins at number `special`; 0
// of a node that has none.
pub fn first_numbers(records: &Records, n: usize, special: usize, firsts: &mut [u64; 64])
    requires bounds { (n ≤ 255) × (special ≤ 2 ^ 60) }
    requires cleared { firsts.old ≡ replicate 64 0 }
    ensures { FirstNumbers records.now.nodes records.now.m n special firsts.new }
{
    let stride = table::block_length(n);
    for i in 0..records.m {
        let node = records.nodes[i];
        if is_special(node.kind) {
            let first = special + specials_before(records, node.offset) * stride;
            firsts[i] = first as u64;
        }
    }
}
