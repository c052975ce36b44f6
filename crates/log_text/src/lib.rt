// What a session's calls answer, as text: numbers, quoted texts, and refusals by name.
//
// The contracts say only what keeps the functions in bounds; what is written is not proved.
#![tactic(auto)]

mod print;
mod refusals;

pub use print::{
    attached, decimal, four_bytes, hex2, hex4, hex8, labelled, newline, quoted, space, text,
};
pub use refusals::{attached_as, refused, refused_reply, values};
