// The specification's worked rows, proved of the definitions that contracts cite: see specs/Rows.antt. There is nothing to call.
#![tactic(auto)]
