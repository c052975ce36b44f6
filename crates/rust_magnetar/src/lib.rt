// The Rust, transcribed: no code, definitions alone. See specs/.
#![tactic(auto)]
