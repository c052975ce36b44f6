// The watch is the Rust's: see specs/Demand.antt. There is nothing to call.
#![tactic(auto)]
