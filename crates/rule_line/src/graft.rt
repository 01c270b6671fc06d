// The records of a line, from those of its shape and of the lines that it names.
ghost use Rattle.std.specs.Prelude.{◌≡◌, ◌+◌, ◌≤◌, ◌<◌, length, take};
ghost use Rattle.expression.specs.Tree.{node_record};
ghost use Rattle.replacement.specs.Graft.{shift_nodes};
ghost use Rattle.rule_line.specs.Coding.{rule_named, Room, grown, nodes_for, no_nodes, grafted_nodes, Graftable};

use crate::shape::Origin;
use crate::sums::rule_named;
use crate::{PassedLine, PassedRule};
use expression::{Kind, Node};

// Records that are being written, and how many: a count stands beside an array, since no memory is asked for.
#[derive(Clone, Copy)]
pub struct Grafting {
    pub nodes: [Node; 64],
    pub written: usize,
}

impl Grafting {
    fn put(&mut self, node: Node)
        requires { self.old.written < 64 }
        ensures { self.new ≡ grown self.old (node_record node.offset node.kind) }
    {
        self.nodes[self.written] = node;
        self.written += 1;
    }

    // Writes the records of a rule, moved by d.
    fn put_rule(&mut self, rule: &PassedRule, d: usize)
        requires { (self.old.written + rule.now.records.m ≤ 64) × (d ≤ 1000000000) }
        ensures { self.new ≡ grown self.old (shift_nodes d (take rule.now.records.m rule.now.records.nodes)) }
    {
        for node in &rule.records.nodes[..rule.records.m] {
            self.put(Node {
                offset: node.offset + d,
                kind: node.kind,
            });
        }
    }

    // Writes the record of a node of the shape, moved to its place, or, for a name's operand, the records of the named rule. The kind is asked
    // too: a concatenation has the offset at which its right side begins, and a name may stand there.
    fn put_node(&mut self, kind: Kind, origin: Origin, place: usize, lines: &[PassedLine])
        requires { Room self.old kind (rule_named lines.now origin) place }
        ensures { self.new ≡ grown self.old (nodes_for kind (rule_named lines.now origin) place) }
    {
        match rule_named(origin, lines) {
            Some(rule) if matches!(kind, Kind::Epsilon) => self.put_rule(rule, place + 1),
            _ => self.put(Node {
                offset: place,
                kind,
            }),
        }
    }
}

// Writes the records of a line: from the records of its shape, the origin and the place of each byte of the shape, and the lines above.
pub fn graft(
    source: &[Node],
    origins: &[Origin],
    places: &[usize],
    lines: &[PassedLine],
) -> Grafting
    requires { Graftable source.now origins.now places.now lines.now }
    ensures { result ≡ grown no_nodes (grafted_nodes origins.now places.now lines.now source.now) }
{
    let none = Node {
        offset: 0,
        kind: Kind::Empty,
    };
    let mut grafting = Grafting {
        nodes: [none; 64],
        written: 0,
    };
    for node in source {
        grafting.put_node(node.kind, origins[node.offset], places[node.offset], lines);
    }
    grafting
}
