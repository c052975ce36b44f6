// The record and the answer of a session's call as plain structs, for the boundary to C and Rust.
#![tactic(auto)]

ghost use Rattle.std.specs.Prelude.{◌≡◌};
ghost use Rattle.export_record.specs.Replies.{is_set, flag, floor_of, floor_is_set, record_of, export_record};
ghost use Rattle.export_record.specs.Replies.{answer_reply, left_record, session_reply, open_reply};

use export_reply::Reply;
use refusal::Refusal;
use session::{Answer, SessionRecord};
use topic_types::ControllerIncarnation;

// A session's record. A flag is any byte: 0 says no, all others yes; a call writes 1 or 0.
#[repr(C)]
#[derive(Clone, Copy)]
pub struct Record {
    pub consumer_id: u64,
    pub incarnation: u64,
    // 0 where there is no floor.
    pub epoch_floor: u64,
    pub queue_count: usize,
    pub drain_positions: [usize; session::READERS],
    pub has_floor: u8,
    pub registered: u8,
    pub invalidated: u8,
}

// What a call of a session gives: the record as it is then, and the answer.
#[repr(C)]
#[derive(Clone, Copy)]
pub struct SessionReply {
    pub state: Record,
    pub reply: Reply,
}

fn is_set(n: u8) -> bool
    ensures { result ≡ is_set n }
{
    n != 0
}

fn flag(set: bool) -> u8
    ensures { result ≡ flag set }
{
    u8::from(set)
}

fn floor_of(any: bool, floor: u64) -> Option<u64>
    ensures { result ≡ floor_of any floor }
{
    any.then_some(floor)
}

pub fn record_of(c: Record) -> SessionRecord
    ensures { result ≡ record_of c }
{
    let drain_positions = c.drain_positions;
    SessionRecord {
        consumer_id: c.consumer_id,
        incarnation: ControllerIncarnation(c.incarnation),
        registered: is_set(c.registered),
        invalidated: is_set(c.invalidated),
        epoch_floor: floor_of(is_set(c.has_floor), c.epoch_floor),
        queue_count: c.queue_count,
        drain_positions,
    }
}

fn has_floor(floor: Option<u64>) -> bool
    ensures { result ≡ floor_is_set floor }
{
    floor.is_some()
}

pub fn export_record(r: SessionRecord) -> Record
    ensures { result ≡ export_record r }
{
    let drain_positions = r.drain_positions;
    Record {
        consumer_id: r.consumer_id,
        incarnation: r.incarnation.0,
        epoch_floor: session_record::floor_value(r.epoch_floor),
        queue_count: r.queue_count,
        drain_positions,
        has_floor: flag(has_floor(r.epoch_floor)),
        registered: flag(r.registered),
        invalidated: flag(r.invalidated),
    }
}

pub fn answer_reply(a: Result<Answer, Refusal>) -> Reply
    ensures { result ≡ answer_reply a }
{
    match a {
        Err(x) => export_reply::refused(x),
        Ok(Answer::Accepted) => export_reply::plain(export_reply::ACCEPTED),
        Ok(Answer::Unchanged) => export_reply::plain(export_reply::UNCHANGED),
        Ok(Answer::Delta(n)) => export_reply::one(export_reply::DELTA, n as u64),
        Ok(Answer::Replay(place, n)) => export_reply::two(
            export_reply::REPLAY,
            place as u64,
            n as u64,
        ),
    }
}

// The record behind a call: that of before where the call refuses.
fn left_record(r: Record, a: Result<Answer, Refusal>, next: SessionRecord) -> Record
    ensures { result ≡ left_record r a next }
{
    match a {
        Err(_) => r,
        Ok(_) => export_record(next),
    }
}

// What a call gives that was given the record r.
pub fn session_reply(r: Record, a: Result<Answer, Refusal>, next: SessionRecord) -> SessionReply
    ensures { result ≡ session_reply r a next }
{
    let state = left_record(r, a, next);
    let reply = answer_reply(a);
    SessionReply { state, reply }
}

// What an open gives, which was given no record.
pub fn open_reply(a: Result<Answer, Refusal>, next: SessionRecord) -> SessionReply
    ensures { result ≡ open_reply a next }
{
    let state = export_record(next);
    let reply = answer_reply(a);
    SessionReply { state, reply }
}
