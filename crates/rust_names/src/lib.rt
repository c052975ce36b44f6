// This port's names and ranges are the Rust's: see specs/Agree.antt. There is nothing to call.
#![tactic(auto)]
