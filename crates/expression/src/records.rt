// The records of a rule.
ghost use Rattle.std.specs.Prelude.{◌≤◌};

use crate::Node;

// What a reader of rules hands on: m records of nodes, k of them special, and behind them `0` at offset 0.
#[derive(Clone, Copy)]
pub struct Records {
    pub m: usize,
    pub k: usize,
    pub nodes: [Node; 64],
    ghost m_bound: { m ≤ 64 },
}
