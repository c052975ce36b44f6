// Registrations, written lists and segments' names are the Rust's: see specs/Agree.antt. There is nothing to call.
#![tactic(auto)]
