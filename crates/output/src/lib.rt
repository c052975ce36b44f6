// What a call that writes to a lent output gives: see specs/Output.antt. There is nothing to call.
#![tactic(auto)]
