// What the names of a rule add: the length of the replaced text, with the place of each byte of the shape in it, and the nodes.
ghost use Rattle.std.specs.Prelude.{◌≡◌, ◌≤◌, length, MatchOption, None, Some};
ghost use Rattle.rule_line.specs.Coding.{rule_named};
ghost use Rattle.rule_line.specs.Summing.{SmallSums, summed_one, Summed};

use crate::shape::Origin;
use crate::{PassedLine, PassedRule};

// The length of the replaced text so far, and what the names so far add to the shape's nodes and special nodes.
#[derive(Clone, Copy)]
pub struct Sums {
    pub length: usize,
    pub nodes: usize,
    pub specials: usize,
}

// The rule that an origin names.
pub fn rule_named<'a>(origin: Origin, lines: &'a [PassedLine]) -> Option<&'a PassedRule>
    ensures { MatchOption result (rule_named lines.now origin ≡ None) (λ q. rule_named lines.now origin ≡ Some q.now) }
{
    match origin {
        Origin::Line(i) => lines.get(i).map(|line| &line.rule),
        _ => None,
    }
}

// With one piece more.
fn add_piece(w: Sums, origin: Origin, lines: &[PassedLine]) -> Sums
    requires { SmallSums w 255 }
    ensures { result ≡ summed_one w (rule_named lines.now origin) }
{
    match rule_named(origin, lines) {
        None => Sums {
            length: w.length + 1,
            nodes: w.nodes,
            specials: w.specials,
        },
        Some(rule) => Sums {
            length: w.length + rule.text_length + 2,
            nodes: w.nodes + (rule.records.m - 1),
            specials: w.specials + rule.records.k,
        },
    }
}

// Sums up the pieces of a rule, and writes the place of each.
pub fn sum_pieces(origins: &[Origin], lines: &[PassedLine], places: &mut [usize; 255]) -> Sums
    requires { length origins.now ≤ 255 }
    ensures { Summed lines.now origins.now places.new result }
{
    let mut w = Sums {
        length: 0,
        nodes: 0,
        specials: 0,
    };
    for (j, origin) in origins.iter().enumerate() {
        places[j] = w.length;
        w = add_piece(w, *origin, lines);
    }
    w
}
