#![tactic(auto)]

// No code: this crate's matter is specs/ and proofs/, the meaning of a span, of the work count and of the span table.
