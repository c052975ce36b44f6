// A session's record changed by value, one function for each change, and the floor.
#![tactic(auto)]

ghost use Rattle.std.specs.Prelude.{◌≡◌, ◌<◌, Ok, Err};
ghost use Rattle.session.specs.Session.{position_of, raise};
ghost use Rattle.session.specs.Update.{with_queue_count, with_floor};
ghost use Rattle.session.specs.Drain.{with_position};
ghost use Rattle.session.specs.declared.Answer.TheVariants.{Unchanged};
ghost use Rattle.session_record.specs.Floors.{below_floor, floor_value};

use refusal::Refusal;
use session::{Answer, Changed, SessionRecord};

// A refusal: the record stays.
pub fn refuse(r: SessionRecord, x: Refusal) -> Changed
    ensures { result ≡ record { next = r; answer = Err x } }
{
    Changed {
        next: r,
        answer: Err(x),
    }
}

// No change: the record stays.
pub fn unchanged(r: SessionRecord) -> Changed
    ensures { result ≡ record { next = r; answer = Ok Unchanged } }
{
    Changed {
        next: r,
        answer: Ok(Answer::Unchanged),
    }
}

// The epoch lies below the floor.
pub fn below_floor(floor: Option<u64>, epoch: u64) -> bool
    ensures { result ≡ below_floor epoch floor }
{
    floor.is_some_and(|v| epoch < v)
}

// The floor, 0 where there is none.
pub fn floor_value(floor: Option<u64>) -> u64
    ensures { result ≡ floor_value floor }
{
    floor.unwrap_or(0)
}

// The floor raised to an epoch that is above it.
pub fn raised(floor: Option<u64>, epoch: u64) -> Option<u64>
    ensures { result ≡ raise floor epoch }
{
    Some(floor.map_or(epoch, |v| v.max(epoch)))
}

pub fn with_queue_count(r: SessionRecord, n: usize) -> SessionRecord
    ensures { result ≡ with_queue_count r n }
{
    SessionRecord {
        queue_count: n,
        ..r
    }
}

pub fn with_floor(r: SessionRecord, epoch_floor: Option<u64>) -> SessionRecord
    ensures { result ≡ with_floor r epoch_floor }
{
    SessionRecord { epoch_floor, ..r }
}

// How far a reader has drained the queue.
pub fn position(r: SessionRecord, reader: usize) -> usize
    requires { reader < 8 }
    ensures { result ≡ position_of r reader }
{
    r.drain_positions[reader]
}

// The position of a reader, and no other, moved to k.
pub fn with_position(r: SessionRecord, reader: usize, k: usize) -> SessionRecord
    requires { reader < 8 }
    ensures { result ≡ with_position r reader k }
{
    let mut drain_positions = r.drain_positions;
    drain_positions[reader] = k;
    SessionRecord {
        drain_positions,
        ..r
    }
}
