// The types of a station's session, and what its calls give: see specs/. The calls are the functions of the crates above this one.
//
// What the Rust's `ScalableConsumerSession` owns lies in two places: a small record, here, and a store that is lent to each call.
#![tactic(auto)]

use refusal::Refusal;
use topic_types::ControllerIncarnation;

// How many readers take the replays, each by its own drain position.
pub const READERS: usize = 8;

// The session's own record.
#[derive(Clone, Copy)]
pub struct SessionRecord {
    pub consumer_id: u64,
    pub incarnation: ControllerIncarnation,
    pub registered: bool,
    pub invalidated: bool,
    // The highest epoch that was accepted, kept over every link to the controller; None before any.
    pub epoch_floor: Option<u64>,
    // How many pushes the queue holds, and how many of them each reader has drained.
    pub queue_count: usize,
    pub drain_positions: [usize; READERS],
}

// What a call answers.
#[derive(Clone, Copy)]
pub enum Answer {
    // A response, begin or invalidate.
    Accepted,
    // No change: an update or a drain that answers none.
    Unchanged,
    // A delta of so many bytes stands at the front of the output.
    Delta(usize),
    // The same, for the packed assignment at that place of the store.
    Replay(usize, usize),
}

// What a call gives: the record as it is then, and the answer.
#[derive(Clone, Copy)]
pub struct Changed {
    pub next: SessionRecord,
    pub answer: Result<Answer, Refusal>,
}
