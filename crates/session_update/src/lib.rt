// Update: a push of the controller, `handle_assignment_update_for`.
//
// The message's assignment is taken into a buffer of one slot: in its usual form by the walk that tests the message, else behind link and consumer. What is refused
// before the last test has written nothing to store or output.
#![tactic(auto)]

ghost use Rattle.std.specs.Prelude.{◌≡◌, true, List, ℕ, ◌≤◌, length};
ghost use Rattle.wire_schema.specs.FirstFault.{first_fault};
ghost use Rattle.wire_readers.specs.Messages.{WireUpdate};
ghost use Rattle.packed.specs.Assignment.{slot_size, starts_assignment};
ghost use Rattle.packed.specs.Assignment as packed-form;
ghost use Rattle.intake_content.specs.Content.{taken, content_of};
ghost use Rattle.session.specs.Store.{min_store, min_output, max_queue, slot};
ghost use Rattle.session.specs.Identity.{identity_topic};
ghost use Rattle.session.specs.Session.{view};
ghost use Rattle.session.specs.Update.{update_unregistered, update_registered};
ghost use Rattle.session.specs.Tails.{update_content, update_valid, update_checked};
ghost use Rattle.session.specs.Calls.{call_outcome, effect_of, update_outcome};
ghost use Rattle.session_store.specs.Scratch.{Scratch};
ghost use Rattle.session_store.specs.Places.{QueueEnds};
ghost use Rattle.session_store.specs.Tests.{StoreTested};
ghost use Rattle.session_intake.specs.Taken.{content_from, Ready};
ghost use Rattle.session_update.specs.Address.{address_of};

use packed::SLOT;
use packed_queue::LENGTH;
use refusal::Refusal;
use session::{Answer, Changed, SessionRecord};
use session_store::{LIST, MAX_QUEUE};
use topic_types::ControllerIncarnation;
use wire_messages::MessageKind;

// The place of the store's list slot.
const LIST_PLACE: usize = SLOT * LIST;

// An update of an unregistered session: the assignment of n bytes in the buffer joins the queue, which ends at a byte place.
fn enqueued(r: SessionRecord, store: &mut [u8], end: usize, b: &[u8], n: usize) -> Changed
    requires queue_count_bound { r.queue_count ≤ max_queue }
    requires queue_ends { QueueEnds store.old r.queue_count end }
    requires scratch { Scratch b.now n }
    ensures { (out : List ℕ) → call_outcome result.answer result.next store.new out
        ≡ effect_of (update_unregistered (view r store.old) (packed-form.decode_assignment b.now)) store.old out }
{
    let floor = r.epoch_floor;
    let epoch = slice_int::read_u64(b, 0);
    if session_record::below_floor(floor, epoch) {
        let value = session_record::floor_value(floor);
        return session_record::refuse(
            r,
            Refusal::CrossIncarnationEpochRegression {
                got: epoch,
                floor: value,
            },
        );
    }
    let count = r.queue_count;
    if count == MAX_QUEUE {
        return session_record::refuse(r, Refusal::PreBaselineBufferFull { max: MAX_QUEUE });
    }
    if store.len() - end < LENGTH + n {
        return session_record::refuse(r, Refusal::PreBaselineBufferFull { max: count });
    }
    session_store::push(store, end, b, n);
    let next = session_record::with_queue_count(r, count + 1);
    session_record::unchanged(next)
}

// An update of a registered session: the assignment of n bytes in the buffer is held, and its delta answered.
fn held(r: SessionRecord, store: &mut [u8], b: &[u8], n: usize, out: &mut [u8]) -> Changed
    requires min_store_in_bounds { (min_store ≤ length store.old) × (min_output ≤ length out.old) }
    requires store_value { starts_assignment (slot store.old 2) ≡ true }
    requires scratch { Scratch b.now n }
    ensures { call_outcome result.answer result.next store.new out.new
        ≡ effect_of (update_registered (view r store.old) (packed-form.decode_assignment b.now)) store.old out.old }
{
    if packed_records::same_assignment(&store[LIST_PLACE..LIST_PLACE + SLOT], b) {
        return session_record::unchanged(r);
    }
    let epoch = slice_int::read_u64(b, 0);
    let prev = slice_int::read_u64(store, LIST_PLACE);
    if epoch < prev {
        return session_record::refuse(r, Refusal::StaleEpoch { got: epoch, prev });
    }
    let len = packed_diff::write_delta(&store[LIST_PLACE..LIST_PLACE + SLOT], b, out);
    session_store::write_slot(store, LIST, b, n);
    let floor = r.epoch_floor;
    let raised = session_record::raised(floor, epoch);
    let next = session_record::with_floor(r, raised);
    Changed {
        next,
        answer: Ok(Answer::Delta(len)),
    }
}

// Link and consumer of a valid update: Ok where it is for this session, else 23, then 24.
fn address_of(
    r: SessionRecord,
    consumer_id: u64,
    incarnation: ControllerIncarnation,
) -> Result<(), Refusal>
    ensures { result ≡ address_of r incarnation consumer_id }
{
    let expected = r.incarnation;
    if incarnation.0 != expected.0 {
        return Err(Refusal::IncarnationMismatch {
            got: incarnation,
            expected,
        });
    }
    if consumer_id != r.consumer_id {
        return Err(Refusal::ConsumerMismatch {
            got: consumer_id,
            expected: r.consumer_id,
        });
    }
    Ok(())
}

// An update for this session, whose assignment the intake took into the buffer, or refused (9 to 11, 34, 12 to 15); then 26, 28 or 27.
fn received(
    r: SessionRecord,
    store: &mut [u8],
    end: usize,
    intake: Result<usize, Refusal>,
    b: &[u8],
    out: &mut [u8],
) -> Changed
    requires min_store_in_bounds { (min_store ≤ length store.old) × (min_output ≤ length out.old) }
    requires store_tested { StoreTested r store.old (Some end) }
    requires ready { Ready intake b.now }
    ensures { call_outcome result.answer result.next store.new out.new
        ≡ effect_of (update_content (view r store.old) (content_from intake b.now)) store.old out.old }
{
    match intake {
        Err(x) => session_record::refuse(r, x),
        Ok(n) => {
            if r.registered {
                return held(r, store, b, n, out);
            }
            enqueued(r, store, end, b, n)
        }
    }
}

// A valid update of a consumer, whose assignment of n bytes stands in the buffer: 23, 24, then 26, 28 or 27.
fn addressed(
    r: SessionRecord,
    store: &mut [u8],
    end: usize,
    consumer_id: u64,
    incarnation: ControllerIncarnation,
    b: &[u8],
    n: usize,
    out: &mut [u8],
) -> Changed
    requires min_store_in_bounds { (min_store ≤ length store.old) × (min_output ≤ length out.old) }
    requires store_tested { StoreTested r store.old (Some end) }
    requires scratch { Scratch b.now n }
    ensures { (u : WireUpdate) → consumer_id ≡ u.consumer_id
        → content_of (identity_topic (slot store.old 0)) u.assignment ≡ taken (packed-form.decode_assignment b.now)
        → call_outcome result.answer result.next store.new out.new
        ≡ effect_of (update_valid (view r store.old) incarnation u) store.old out.old }
{
    match address_of(r, consumer_id, incarnation) {
        Err(x) => session_record::refuse(r, x),
        Ok(()) => received(r, store, end, Ok(n), b, out),
    }
}

// An update in any form: its message is scanned, 3, 4, 7, 6, and read. Only where it is for this session its assignment is taken in.
fn scanned(
    r: SessionRecord,
    store: &mut [u8],
    end: usize,
    message: &[u8],
    incarnation: ControllerIncarnation,
    b: &mut [u8],
    out: &mut [u8],
) -> Changed
    requires min_store_in_bounds { (min_store ≤ length store.old) × (min_output ≤ length out.old) }
    requires store_tested { StoreTested r store.old (Some end) }
    requires b_len { length b.old ≡ slot_size }
    ensures { call_outcome result.answer result.next store.new out.new
        ≡ effect_of (update_checked (view r store.old) incarnation message.now (first_fault MessageKind.CommandScalableTopicAssignmentUpdate message.now)) store.old out.old }
{
    match wire_messages::first_fault(MessageKind::CommandScalableTopicAssignmentUpdate, message) {
        Err(x) => session_record::refuse(r, x),
        Ok(()) => {
            let head = wire_readers::read_update(message);
            match address_of(r, head.consumer_id, incarnation) {
                Err(x) => session_record::refuse(r, x),
                Ok(()) => {
                    let intake = session_intake::take_assignment(
                        store,
                        message,
                        2,
                        head.layout_epoch,
                        b,
                    );
                    received(r, store, end, intake, b, out)
                }
            }
        }
    }
}

// The update. Refused in order: 1, 2, 22, 3, 4, 7, 6, 23, 24, 9 to 11, 34, 12 to 15, then 26, 28 or 27.
pub fn updated(
    r: SessionRecord,
    store: &mut [u8],
    message: &[u8],
    incarnation: ControllerIncarnation,
    out: &mut [u8],
) -> Changed
    ensures { call_outcome result.answer result.next store.new out.new
        ≡ update_outcome r store.old message.now incarnation out.old }
{
    if store.len() < session_store::MIN_STORE {
        return session_record::refuse(r, Refusal::StoreTooShort);
    }
    if out.len() < packed_diff::LONGEST {
        return session_record::refuse(r, Refusal::OutputTooShort);
    }
    let Some(end) = session_store::test_store(r, store) else {
        return session_record::refuse(r, Refusal::MalformedStore);
    };
    let mut b = [0u8; SLOT];
    match session_intake::take_ordered_message(store, message, 2, &mut b) {
        Some((id, n)) => { addressed(r, store, end, id, incarnation, &b, n, out) }
        None => scanned(r, store, end, message, incarnation, &mut b, out),
    }
}
