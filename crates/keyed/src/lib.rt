// Lists by key, and what is done to them: see specs/Keyed.antt and its laws in proofs/. There is nothing to call.
#![tactic(auto)]
