// An uploader's log (02 m): its entries and what it is answered. When a log passes is defined in specs/; the program is
// `attach_log`.
#![tactic(auto)]

use refusal::Refusal;

// The bytes of an entry.
pub const ENTRY: usize = 9;

// A segment detached or attached, by its id.
#[derive(Clone, Copy)]
pub enum Entry {
    Detach(u64),
    Attach(u64),
}
