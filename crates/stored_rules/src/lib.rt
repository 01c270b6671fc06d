#![tactic(auto)]

// No code: this crate is specs/ and proofs/, what the judge and a job make of the rewritten text of a stored rule.
