// Demands 2 and 3 over the exported calls, from open on: no code, three theorems. See specs/ for what they say, proofs/ for why.
#![tactic(auto)]
