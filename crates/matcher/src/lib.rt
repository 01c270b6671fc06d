// The judge of a rule that was read: which spans of a word obey the rule of some records, in a lent table, within a lent limit of work.
// In two steps, for callers that have a check of their own between them: word and table are checked, then the table is filled.
#![tactic(auto)]

mod word;

ghost use Rattle.std.specs.Prelude.{◌≡◌, ◌≤◌};
ghost use Rattle.work.specs.Table.{need_of};
ghost use Rattle.owners.specs.Filling.{rule_of};
ghost use Rattle.matcher.specs.MatchAnswer.{refusal_verdict, match_values};
ghost use Rattle.matcher.specs.MatchComputed.{fit_values, fit_answer, limited, match_answer};
ghost use Rattle.matcher.specs.MatchMeaning.{MatchMeaning};
ghost use Rattle.matcher.specs.Given.{RuleRecords, Fitting};

use expression::records::Records;
use verdict::{Judged, Verdict};

// The most events that a word may have.
const MOST_EVENTS: usize = 255;

// Why a word, a table or a limit is refused: with the place of a foreign event, and with the limit that is spent.
#[derive(Clone, Copy, PartialEq, Eq)]
pub enum Refusal {
    LongWord,
    ForeignEvent(usize),
    ShortTable,
    Spent(u64),
}

// Number, place and count of each refusal.
impl From<Refusal> for Verdict {
    ghost from_gives = { λ refusal verdict. verdict ≡ refusal_verdict refusal };

    fn from(refusal: Refusal) -> Verdict {
        match refusal {
            Refusal::LongWord => Verdict::refusal(7, 0),
            Refusal::ForeignEvent(place) => Verdict::refusal(8, place as u64),
            Refusal::ShortTable => Verdict::refusal(9, 0),
            Refusal::Spent(limit) => Verdict {
                number: 10,
                place: 0,
                found: 0,
                count: limit,
            },
        }
    }
}

// Judges every span of the word by the rule of the records, and fills the table.
pub fn match_spans(
    records: &Records,
    word: &[u8],
    limit: u64,
    table: &mut [u64],
) -> Result<Judged, Refusal>
    requires { RuleRecords (rule_of records.now) records.now.nodes records.now.m records.now.k }
    ensures value { match_values result table.new
        ≡ match_answer (rule_of records.now) word.now limit table.old }
    ensures meaning { MatchMeaning (rule_of records.now) word.now limit table.old
        (match_values result table.new) }
{
    check_fit(records.k, word, table)?;
    fill_and_count(records, word, limit, table)
}

// The first step: whether the word and the table fit a rule with k special nodes.
#[tactic(auto, using(crate::proofs::Tested::first_step))]
pub fn check_fit(k: usize, word: &[u8], table: &[u64]) -> Result<(), Refusal>
    requires { k ≤ 7 }
    ensures { fit_values result ≡ fit_answer k word.now table.now }
{
    let n = word.len();
    if MOST_EVENTS < n {
        return Err(Refusal::LongWord);
    }
    if let Some(place) = word::find_foreign(word) {
        return Err(Refusal::ForeignEvent(place));
    }
    if table.len() < needed(k, n) {
        return Err(Refusal::ShortTable);
    }
    Ok(())
}

// The second step: fills the numbers that are needed, and counts the ones of the first block.
pub fn fill_and_count(
    records: &Records,
    word: &[u8],
    limit: u64,
    table: &mut [u64],
) -> Result<Judged, Refusal>
    requires rule_records { RuleRecords (rule_of records.now) records.now.nodes records.now.m records.now.k }
    requires fitting { Fitting records.now.k word.now table.old }
    ensures { match_values result table.new
        ≡ limited (rule_of records.now) word.now limit table.old }
{
    let n = word.len();
    let need = needed(records.k, n);
    let block = table::block_length(n);
    let Some(work) = owners::fill(records, word, limit, &mut table[..need], 0, block) else {
        return Err(Refusal::Spent(limit));
    };
    let found = bits::count(&table[..block]);
    let count = work.count;
    Ok(Judged { found, count })
}

// The numbers that k special nodes and n events need.
#[tactic(auto, using(crate::proofs::Tested::need_most))]
fn needed(k: usize, n: usize) -> usize
    requires { (k ≤ 7) × (n ≤ 255) }
    ensures { result ≡ need_of k n }
{
    (k + 1) * table::block_length(n)
}
