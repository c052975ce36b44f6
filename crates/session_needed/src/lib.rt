// The condition of demand 3 on drains is needed: see proofs/Needed.antt. There is nothing to call.
#![tactic(auto)]
