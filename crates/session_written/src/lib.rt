// What is written is what a session holds: see specs/Held.antt. There is nothing to call.
#![tactic(auto)]
