// The owners' turns: a special node's block is filled when those within its sides are, and the whole rule's last.
ghost use Rattle.std.specs.Prelude.{◌≡◌, true, ◌<◌, ◌≤◌, length, is_none};
ghost use Rattle.marks.specs.Works.{count_of, HasLimit};
ghost use Rattle.moves.specs.Moves.{kind_at, special_kind};
ghost use Rattle.owners.specs.Filling.{rule_of};
ghost use Rattle.owners.specs.Blocks.{BlocksBelow, WholeApart};
ghost use Rattle.owners.specs.Turns.{is_complement, OwnersSet, Turned, SpecialsTurned, AllTurned};

use expression::Kind;
use expression::records::Records;
use levels::automaton::Automaton;
use marks::counting::Work;
use marks::target::Target;
use moves::is_special;

// Whether a special node's block has the spans at which its walks do not end.
fn is_complement(kind: Kind) -> bool
    ensures { result ≡ is_complement kind }
{
    matches!(kind, Kind::Complement)
}

// The owners of a rule: its records, the left or only side of each node, its automaton, and the word that they judge.
#[derive(Clone, Copy)]
pub struct Owners<'a> {
    pub records: &'a Records,
    pub lefts: &'a [usize; 64],
    pub automaton: &'a Automaton,
    pub word: &'a [u8],
}

impl<'a> Owners<'a> {
    // Special node i's turn: the walks that it owns, and its block.
    fn own(&self, table: &mut [u64], i: usize, work: Work) -> Option<Work>
        requires setting { OwnersSet self.now (length table.old) }
        requires blocks_below { BlocksBelow self.now.word.now table.old (rule_of self.now.records.now) self.now.automaton.now.firsts i }
        requires i_lt_m { (i < self.now.records.now.m) × (special_kind (kind_at self.now.records.now.nodes i) ≡ true) }
        ensures turned { Turned (rule_of self.now.records.now) self.now.word.now self.now.automaton.now.firsts i work.count work.limit
            table.old table.new (count_of work.limit result) (is_none result) }
        ensures limit { HasLimit work.limit result }
    {
        let complement = is_complement(self.records.nodes[i].kind);
        // The exits of its sides; the right one stands just before it, and the only side of a complement is both.
        let left = 2 * self.lefts[i] + 1;
        let right = 2 * i - 1;
        let target = Target {
            first: self.automaton.firsts[i] as usize,
            left,
            right,
            complement,
        };
        walk::fill_block(self.automaton, self.word, table, target, work)
    }

    // The turns of the special nodes, inner ones first.
    fn fill_specials(&self, table: &mut [u64], limit: u64) -> Option<Work>
        requires { OwnersSet self.now (length table.old) }
        ensures turned { SpecialsTurned (rule_of self.now.records.now) self.now.word.now self.now.automaton.now.firsts limit
            table.old table.new (count_of limit result) (is_none result) }
        ensures limit { HasLimit limit result }
    {
        let mut work = Work::new(limit);
        for i in 0..self.records.m {
            if is_special(self.records.nodes[i].kind) {
                work = self.own(table, i, work)?;
            }
        }
        Some(work)
    }

    // All turns; the whole rule's walks begin and end at the last node.
    pub fn fill_all(&self, table: &mut [u64], whole: usize, limit: u64) -> Option<Work>
        requires setting { OwnersSet self.now (length table.old) }
        requires whole_apart { WholeApart (rule_of self.now.records.now) (length self.now.word.now) self.now.automaton.now.firsts
            (length table.old) whole }
        ensures { AllTurned (rule_of self.now.records.now) self.now.word.now self.now.automaton.now.firsts whole limit
            table.old table.new (count_of limit result) (is_none result) }
    {
        let work = self.fill_specials(table, limit)?;
        let last = 2 * self.records.m - 1;
        let target = Target {
            first: whole,
            left: last,
            right: last,
            complement: false,
        };
        walk::fill_block(self.automaton, self.word, table, target, work)
    }
}
