// The calls of a session.
ghost use Rattle.std.specs.Prelude.{◌≡◌, List, ℕ};
ghost use Rattle.topic_types.specs.ConsumerTypes.{from_wire};
ghost use Rattle.wire_readers.specs.Places.{response_place};
ghost use Rattle.session.specs.Calls.{match_of};
ghost use Rattle.wire_values.specs.Places.{text_place, PlaceIs};
ghost use Rattle.export_record.specs.Replies.{record_of, answer_reply};
ghost use Rattle.export_record.specs.Exported.{lent_open, lent_begin, lent_invalidate, lent_update, lent_response, lent_drain};
ghost use Rattle.export_session.specs.Check.{check_of};
ghost use Rattle.export.specs.Exports.{match_reply};

use crate::Part;
use export_record::{Record, SessionReply, open_reply};
use export_reply::Reply;
use topic_types::{ControllerIncarnation, ScalableConsumerType};

// Opens a session over the store: `ScalableConsumerSession::new`. The kind is the integer of the wire.
#[unsafe(no_mangle)]
pub extern "C" fn cuddrewyn_open(
    consumer_id: u64,
    incarnation: u64,
    topic: &[u8],
    subscription: &[u8],
    consumer_name: &[u8],
    kind: i32,
    store: &mut [u8],
) -> SessionReply
    ensures { record { call = result; store = store.new }
        ≡ lent_open consumer_id incarnation topic.now subscription.now consumer_name.now kind store.old }
{
    let kind = ScalableConsumerType::from_pb_i32(kind);
    let opened = session_open::open(
        consumer_id,
        ControllerIncarnation(incarnation),
        topic,
        subscription,
        consumer_name,
        kind,
        store,
    );
    open_reply(opened.answer, opened.next)
}

// A new link to the controller: `begin_incarnation`.
#[unsafe(no_mangle)]
pub extern "C" fn cuddrewyn_begin(r: &mut Record, incarnation: u64) -> Reply
    ensures { record { state = r.new; reply = result }
        ≡ lent_begin r.old incarnation }
{
    let begun = export_session::begun(*r, incarnation);
    *r = begun.state;
    begun.reply
}

// The controller is not to be trusted any more: `invalidate_authority`.
#[unsafe(no_mangle)]
pub extern "C" fn cuddrewyn_invalidate(r: &mut Record) -> Reply
    ensures { record { state = r.new; reply = result } ≡ lent_invalidate r.old }
{
    let invalidated = export_session::invalidated(*r);
    *r = invalidated.state;
    invalidated.reply
}

// A push of the controller: `handle_assignment_update_for`.
#[unsafe(no_mangle)]
pub extern "C" fn cuddrewyn_update(
    r: &mut Record,
    store: &mut [u8],
    message: &[u8],
    incarnation: u64,
    out: &mut [u8],
) -> Reply
    ensures { record { reply = result; state = r.new; store = store.new; out = out.new }
        ≡ lent_update r.old store.old message.now incarnation out.old }
{
    let updated = export_session::updated(*r, store, message, incarnation, out);
    *r = updated.state;
    updated.reply
}

// The answer to a registration: `handle_subscribe_response_for`.
#[unsafe(no_mangle)]
pub extern "C" fn cuddrewyn_response(
    r: &mut Record,
    store: &mut [u8],
    message: &[u8],
    incarnation: u64,
) -> Reply
    ensures { (out : List ℕ) → record { reply = result; state = r.new; store = store.new; out = out }
        ≡ lent_response r.old store.old message.now incarnation out }
{
    let responded = export_session::responded(*r, store, message, incarnation);
    *r = responded.state;
    responded.reply
}

// The next push of the queue, for one of the readers, that differs from its predecessor: `take_replayed_updates`, one per call.
// It stays beside `cuddrewyn_response`, which has its shape: each is a call of the C interface.
#[unsafe(no_mangle)]
pub extern "C" fn cuddrewyn_drain_for(
    r: &mut Record,
    store: &[u8],
    reader: usize,
    out: &mut [u8],
) -> Reply
    ensures { record { reply = result; state = r.new; store = store.now; out = out.new }
        ≡ lent_drain r.old store.now reader out.old }
{
    let drained = export_session::drained(*r, store, reader, out);
    *r = drained.state;
    drained.reply
}

// Whether record and store are a session's, as every call over a store asks first.
#[unsafe(no_mangle)]
pub extern "C" fn cuddrewyn_check(r: Record, store: &[u8]) -> Reply
    ensures { result ≡ answer_reply (check_of (record_of r) store.now) }
{
    export_session::checked(r, store)
}

// Whether the store was opened with these texts and this kind: `matches_registration`.
#[unsafe(no_mangle)]
pub extern "C" fn cuddrewyn_matches_registration(
    store: &[u8],
    topic: &[u8],
    subscription: &[u8],
    consumer_name: &[u8],
    kind: i32,
) -> Reply
    ensures { result ≡ match_reply (match_of store.now
        (record {
          topic = topic.now;
          subscription = subscription.now;
          consumer_name = consumer_name.now;
          consumer_type = from_wire kind;
        })) }
{
    let kind = ScalableConsumerType::from_pb_i32(kind);
    match session_open::matches_registration(store, topic, subscription, consumer_name, kind) {
        Ok(true) => export_reply::plain(export_reply::YES),
        Ok(false) => export_reply::plain(export_reply::NO),
        Err(x) => export_reply::refused(x),
    }
}

// Where the last part of field n stands.
pub fn last_part(message: &[u8], n: u64) -> Part
    ensures { PlaceIs message.now (text_place n message.now) result.start result.length }
{
    let p = wire_values::last_part(message, n);
    Part {
        start: p.start,
        length: p.length,
    }
}

// Where the broker's text stands in a response that was refused with 16.
#[unsafe(no_mangle)]
pub extern "C" fn cuddrewyn_response_text(message: &[u8]) -> Part
    ensures { PlaceIs message.now (response_place message.now) result.start result.length }
{
    last_part(message, 3)
}
