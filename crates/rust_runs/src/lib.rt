// Sessions that the Rust has answered, as equations of its transcription: see specs/. There is nothing to call.
#![tactic(auto)]
