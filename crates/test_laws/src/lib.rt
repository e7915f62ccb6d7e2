//! Worked rows: tables of inputs, each with what the definitions of the crates below give for it. Each row is a lemma in
//! proofs/, proved by computation. The crate has no code. It stands beside the others, so no proof waits for it.
#![tactic(auto)]
