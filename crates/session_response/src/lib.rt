// Response: the answer to a registration, `handle_subscribe_response_for`.
//
// The Rust stages a clone, replays the queue over it, and keeps it only if every push passes. Here the queue's epochs are tested first, and nothing is written before
// the last test.
#![tactic(auto)]

ghost use Rattle.std.specs.Prelude.{◌≡◌, true, false, cond, List, ℕ, ◌≤◌, ◌<◌, length};
ghost use Rattle.wire_schema.specs.FirstFault.{first_fault};
ghost use Rattle.wire_readers.specs.Messages.{WireResponse, response_of};
ghost use Rattle.packed.specs.Assignment as packed-form;
ghost use Rattle.session.specs.Store.{min_store, slot, queue_in, queue_reads};
ghost use Rattle.session.specs.Identity.{identity_topic, is_identity};
ghost use Rattle.session.specs.Session.{view, damaged};
ghost use Rattle.session.specs.Tails.{response_assignment, response_valid, response_checked};
ghost use Rattle.session.specs.Calls.{call_outcome, effect_of, response_outcome};
ghost use Rattle.session_store.specs.Scratch.{Scratch};
ghost use Rattle.session_intake.specs.Taken.{content_from, Ready, Answers};
ghost use Rattle.session_response.specs.Replay.{stale_of, LastBegins, LastIs, denied_by, content_of_response, registered_by, registered};

use packed::SLOT;
use packed_queue::LENGTH;
use refusal::Refusal;
use session::{Answer, Changed, READERS, SessionRecord};
use session_store::{BASELINE, LIST, MIN_STORE};
use topic_types::ControllerIncarnation;
use wire_messages::MessageKind;

// The first of n queue entries whose epoch lies below the one before it, which for the first is a given one: Err with both epochs. Ok with the byte place of
// the last entry where there is none.
fn first_stale(store: &[u8], epoch: u64, n: usize) -> Result<usize, (u64, u64)>
    requires { (min_store ≤ length store.now) × (queue_reads store.now n ≡ true) }
    ensures { result ≡ stale_of min_store min_store epoch (queue_in store.now n) }
{
    let mut prev = epoch;
    let mut last = MIN_STORE;
    let mut at = MIN_STORE;
    for _ in 0..n {
        let size = slice_int::read_u16(store, at) as usize;
        let place = at + LENGTH;
        let got = slice_int::read_u64(store, place);
        if got < prev {
            return Err((got, prev));
        }
        prev = got;
        last = at;
        at = place + size;
    }
    Ok(last)
}

// Copies the last list of the replay of n queue entries, whose last begins at a byte place, and answers its size. One list at least is replayed, over that in b.
fn load_last(store: &[u8], n: usize, at: usize, b: &[u8], last: &mut [u8]) -> usize
    requires min_store_in_bounds { (min_store ≤ length store.now) × (queue_reads store.now n ≡ true) }
    requires n_nonzero { (0 < n) × LastBegins store.now n at }
    requires last_len { length last.old ≡ packed-form.slot_size }
    ensures { LastIs store.now b.now n result last.new }
{
    let len = slice_int::read_u16(store, at) as usize;
    let from = at + LENGTH;
    let to = from + len;
    slice_int::put_bytes(last, 0, &store[from..to]);
    len
}

// How many pushes are replayed: none in a registered session.
fn replay_count(r: SessionRecord) -> usize
    ensures { result ≡ cond r.registered 0 r.queue_count }
{
    if r.registered { 0 } else { r.queue_count }
}

// The record behind an accepted response, whose last list has that epoch.
fn registered_with(r: SessionRecord, epoch: u64, count: usize) -> SessionRecord
    ensures { result ≡ registered_by r epoch count }
{
    let epoch_floor = session_record::raised(r.epoch_floor, epoch);
    SessionRecord {
        registered: true,
        epoch_floor,
        queue_count: count,
        drain_positions: [0; READERS],
        ..r
    }
}

// The baseline of size bytes in the buffer b is set, and with it the last list and the floor. No push is replayed: the baseline is the last list.
fn register_alone(r: SessionRecord, store: &mut [u8], b: &[u8], size: usize) -> Changed
    requires min_store_in_bounds { min_store ≤ length store.old }
    requires scratch { Scratch b.now size }
    requires value { 0 ≡ cond r.registered 0 r.queue_count }
    ensures { (out : List ℕ) → call_outcome result.answer result.next store.new out
        ≡ effect_of (registered (view r store.old) (packed-form.decode_assignment b.now)) store.old out }
{
    let epoch = slice_int::read_u64(b, 0);
    session_store::write_slot(store, BASELINE, b, size);
    session_store::write_slot(store, LIST, b, size);
    let next = registered_with(r, epoch, 0);
    Changed {
        next,
        answer: Ok(Answer::Accepted),
    }
}

// The same where count pushes are replayed, of which the last begins at a byte place.
fn register(
    r: SessionRecord,
    store: &mut [u8],
    b: &[u8],
    size: usize,
    count: usize,
    at: usize,
) -> Changed
    requires min_store_in_bounds { (min_store ≤ length store.old) × (damaged (view r store.old) ≡ false) }
    requires scratch { Scratch b.now size }
    requires count_value { count ≡ cond r.registered 0 r.queue_count }
    requires last_begins { LastBegins store.old count at }
    ensures { (out : List ℕ) → call_outcome result.answer result.next store.new out
        ≡ effect_of (registered (view r store.old) (packed-form.decode_assignment b.now)) store.old out }
{
    if count == 0 {
        return register_alone(r, store, b, size);
    }
    let mut last = [0u8; SLOT];
    let len = load_last(store, count, at, b, &mut last);
    let epoch = slice_int::read_u64(&last, 0);
    session_store::write_slot(store, BASELINE, b, size);
    session_store::write_slot(store, LIST, &last, len);
    let next = registered_with(r, epoch, count);
    Changed {
        next,
        answer: Ok(Answer::Accepted),
    }
}

// A response with the assignment of size bytes in the buffer b: 26, then 27.
fn assigned(r: SessionRecord, store: &mut [u8], b: &[u8], size: usize) -> Changed
    requires min_store_in_bounds { (min_store ≤ length store.old) × (damaged (view r store.old) ≡ false) }
    requires scratch { Scratch b.now size }
    ensures { (out : List ℕ) → call_outcome result.answer result.next store.new out
        ≡ effect_of (response_assignment (view r store.old) (packed-form.decode_assignment b.now)) store.old out }
{
    let floor = r.epoch_floor;
    let epoch = slice_int::read_u64(b, 0);
    if session_record::below_floor(floor, epoch) {
        let value = session_record::floor_value(floor);
        return session_record::refuse(
            r,
            Refusal::CrossIncarnationEpochRegression {
                got: epoch,
                floor: value,
            },
        );
    }
    let count = replay_count(r);
    match first_stale(store, epoch, count) {
        Err((got, prev)) => session_record::refuse(r, Refusal::StaleEpoch { got, prev }),
        Ok(at) => register(r, store, b, size, count, at),
    }
}

// The refusal of a response without an assignment: 16, or 17.
fn denial(error: Option<i32>, request_id: u64) -> Refusal
    ensures { result ≡ denied_by error request_id }
{
    match error {
        Some(code) => Refusal::Broker { code },
        None => Refusal::Empty { request_id },
    }
}

// What a response comes to: its assignment, taken into the buffer or refused, or else 16 or 17.
fn take_response(store: &[u8], message: &[u8], b: &mut [u8]) -> Result<usize, Refusal>
    requires min_store_in_bounds { (min_store ≤ length store.now) × (is_identity (slot store.now 0) ≡ true) }
    requires b_len { length b.old ≡ packed-form.slot_size }
    ensures { Answers result b.new (content_of_response (identity_topic (slot store.now 0)) (response_of message.now)) }
{
    let head = wire_readers::read_response(message);
    let epoch = head.layout_epoch;
    if head.has_assignment {
        return session_intake::take_assignment(store, message, 4, epoch, b);
    }
    Err(denial(head.error, head.request_id))
}

// A valid response, whose assignment is in the buffer, or that is refused. Refused in order: 23, 16 or 17 or 9 to 11, 34, 12 to 15, 26, 27.
fn answered(
    r: SessionRecord,
    store: &mut [u8],
    incarnation: ControllerIncarnation,
    intake: Result<usize, Refusal>,
    b: &[u8],
) -> Changed
    requires min_store_in_bounds { (min_store ≤ length store.old) × (damaged (view r store.old) ≡ false) }
    requires ready { Ready intake b.now }
    ensures { (w : WireResponse) → content_of_response (identity_topic (slot store.old 0)) w ≡ content_from intake b.now
        → (out : List ℕ) → call_outcome result.answer result.next store.new out
        ≡ effect_of (response_valid (view r store.old) incarnation w) store.old out }
{
    let expected = r.incarnation;
    if incarnation.0 != expected.0 {
        return session_record::refuse(
            r,
            Refusal::IncarnationMismatch {
                got: incarnation,
                expected,
            },
        );
    }
    match intake {
        Err(x) => session_record::refuse(r, x),
        Ok(size) => assigned(r, store, b, size),
    }
}

// A response in any form: its message is scanned, 3, 4, 7, 6, and read. Only over this link, 23, its assignment is taken in.
fn scanned(
    r: SessionRecord,
    store: &mut [u8],
    message: &[u8],
    incarnation: ControllerIncarnation,
    b: &mut [u8],
) -> Changed
    requires min_store_in_bounds { (min_store ≤ length store.old) × (damaged (view r store.old) ≡ false) }
    requires b_len { length b.old ≡ packed-form.slot_size }
    ensures { (out : List ℕ) → call_outcome result.answer result.next store.new out
        ≡ effect_of (response_checked (view r store.old) incarnation message.now (first_fault MessageKind.CommandScalableTopicSubscribeResponse message.now)) store.old out }
{
    match wire_messages::first_fault(MessageKind::CommandScalableTopicSubscribeResponse, message) {
        Err(x) => session_record::refuse(r, x),
        Ok(()) => {
            let expected = r.incarnation;
            if incarnation.0 != expected.0 {
                return session_record::refuse(
                    r,
                    Refusal::IncarnationMismatch {
                        got: incarnation,
                        expected,
                    },
                );
            }
            let intake = take_response(store, message, b);
            answered(r, store, incarnation, intake, b)
        }
    }
}

// The response. Refused in order: 1, 22, 3, 4, 7, 6, 23, 16 or 17, 9 to 11, 34, 12 to 15, 26, 27. The broker's text of a 16 is `broker_text`.
pub fn responded(
    r: SessionRecord,
    store: &mut [u8],
    message: &[u8],
    incarnation: ControllerIncarnation,
) -> Changed
    ensures { (out : List ℕ) → call_outcome result.answer result.next store.new out
        ≡ response_outcome r store.old message.now incarnation out }
{
    if store.len() < session_store::MIN_STORE {
        return session_record::refuse(r, Refusal::StoreTooShort);
    }
    if !session_store::is_sound(r, store) {
        return session_record::refuse(r, Refusal::MalformedStore);
    }
    let mut b = [0u8; SLOT];
    match session_intake::take_ordered_message(store, message, 4, &mut b) {
        Some((_, size)) => { answered(r, store, incarnation, Ok(size), &b) }
        None => scanned(r, store, message, incarnation, &mut b),
    }
}

// The broker's text, empty where there is none: a part of the message, never of the store.
pub fn broker_text<'m, 's>(message: &'m [u8], store: &'s [u8]) -> &'m [u8]
    ensures { result.now ≡ (response_of message.now).message }
{
    wire_readers::response_text(message, store)
}
