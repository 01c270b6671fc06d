#![tactic(auto)]

// No code: this crate is specs/ and proofs/, names in a rule text, the text that they stand for, and its reading.
