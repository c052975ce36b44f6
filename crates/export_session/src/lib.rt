// The calls that change a session, over the record as a plain struct: each reads it, makes the call of 01, and gives record and answer as plain structs.
// The exported calls, to which the record is lent, hand it on to these with one statement, and so does the station's program.
#![tactic(auto)]

ghost use Rattle.std.specs.Prelude.{◌≡◌, List, ℕ};
ghost use Rattle.session.specs.Link.{begin_of, invalidate_of};
ghost use Rattle.session.specs.Calls.{update_outcome, response_outcome, drain_outcome};
ghost use Rattle.export_record.specs.Replies.{record_of, answer_reply, changed_reply, lent_of};
ghost use Rattle.export_session.specs.Check.{check_of};

use export_record::{Record, SessionReply, record_of, session_reply};
use export_reply::Reply;
use refusal::Refusal;
use session::{Answer, SessionRecord};
use topic_types::ControllerIncarnation;

// A new link to the controller: `begin_incarnation`.
pub fn begun(r: Record, incarnation: u64) -> SessionReply
    ensures { result ≡ changed_reply r (begin_of (record_of r) (record { 0 = incarnation })) }
{
    let begun = session_link::begun(record_of(r), ControllerIncarnation(incarnation));
    session_reply(r, begun.answer, begun.next)
}

// The controller is not to be trusted any more: `invalidate_authority`.
pub fn invalidated(r: Record) -> SessionReply
    ensures { result ≡ changed_reply r (invalidate_of (record_of r)) }
{
    let invalidated = session_link::invalidated(record_of(r));
    session_reply(r, invalidated.answer, invalidated.next)
}

// A push of the controller: `handle_assignment_update_for`.
pub fn updated(
    r: Record,
    store: &mut [u8],
    message: &[u8],
    incarnation: u64,
    out: &mut [u8],
) -> SessionReply
    ensures { record { reply = result.reply; state = result.state; store = store.new; out = out.new }
        ≡ lent_of r (update_outcome (record_of r) store.old message.now (record { 0 = incarnation }) out.old) }
{
    let updated = session_update::updated(
        record_of(r),
        store,
        message,
        ControllerIncarnation(incarnation),
        out,
    );
    session_reply(r, updated.answer, updated.next)
}

// The answer to a registration: `handle_subscribe_response_for`.
pub fn responded(r: Record, store: &mut [u8], message: &[u8], incarnation: u64) -> SessionReply
    ensures { (out : List ℕ) → record { reply = result.reply; state = result.state; store = store.new; out = out }
        ≡ lent_of r (response_outcome (record_of r) store.old message.now (record { 0 = incarnation }) out) }
{
    let responded = session_response::responded(
        record_of(r),
        store,
        message,
        ControllerIncarnation(incarnation),
    );
    session_reply(r, responded.answer, responded.next)
}

// The next push of the queue, for one of the readers, that differs from its predecessor: `take_replayed_updates`, one per call.
pub fn drained(r: Record, store: &[u8], reader: usize, out: &mut [u8]) -> SessionReply
    ensures { record { reply = result.reply; state = result.state; store = store.now; out = out.new }
        ≡ lent_of r (drain_outcome (record_of r) store.now reader out.old) }
{
    let drained = session_drain::drained(record_of(r), store, reader, out);
    session_reply(r, drained.answer, drained.next)
}

// What every call over a store asks first of it and the record: 1, then 22.
fn check(r: SessionRecord, store: &[u8]) -> Result<Answer, Refusal>
    ensures { result ≡ check_of r store.now }
{
    if store.len() < session_store::MIN_STORE {
        return Err(Refusal::StoreTooShort);
    }
    if session_store::is_sound(r, store) {
        Ok(Answer::Accepted)
    } else {
        Err(Refusal::MalformedStore)
    }
}

// The same of the record as a plain struct.
pub fn checked(r: Record, store: &[u8]) -> Reply
    ensures { result ≡ answer_reply (check_of (record_of r) store.now) }
{
    export_record::answer_reply(check(record_of(r), store))
}
