// This port's session is the Rust's session: no code, one theorem. See specs/ for what it says, proofs/ for why.
#![tactic(auto)]
