// What the assignment of a message comes to: see specs/Content.antt. There is nothing to call.
#![tactic(auto)]
