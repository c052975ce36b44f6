// A packed assignment as a message: see specs/Message.antt and, that it reads back as itself, proofs/. There is nothing to call.
#![tactic(auto)]
