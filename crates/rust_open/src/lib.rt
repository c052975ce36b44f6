// Demands 2 and 3 from open on: no code, five theorems. See specs/ for what they say, proofs/ for why.
#![tactic(auto)]
