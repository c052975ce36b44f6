// A session opened on a store (`ScalableConsumerSession::new`), and its registration compared (`matches_registration`).
#![tactic(auto)]

ghost use Rattle.std.specs.Prelude.{◌≡◌, true, ◌+◌, ◌≤◌, length, leb};
ghost use Rattle.slice_int.specs.Put.{put};
ghost use Rattle.packed.specs.Assignment.{slot_size};
ghost use Rattle.session.specs.Store.{min_store};
ghost use Rattle.session.specs.Identity.{max_texts, kind_byte, encode_identity, is_identity};
ghost use Rattle.session.specs.Calls.{fresh_record, open_outcome, same_identity, match_of};

use refusal::Refusal;
use session::{Answer, Changed, READERS, SessionRecord};
use session_store::{IDENTITY_HEAD, KIND, MAX_TEXTS, MIN_STORE, NAME_LENGTH, SUBSCRIPTION_LENGTH};
use topic_types::{ControllerIncarnation, ScalableConsumerType};

fn kind_byte(kind: ScalableConsumerType) -> u8
    ensures { result ≡ kind_byte kind }
{
    match kind {
        ScalableConsumerType::Stream => 0,
        ScalableConsumerType::Checkpoint => 1,
    }
}

// The three texts fit an identity's slot together.
fn texts_fit(topic: &[u8], subscription: &[u8], name: &[u8]) -> bool
    ensures { result ≡ leb (length topic.now + length subscription.now + length name.now) max_texts }
{
    topic.len() <= MAX_TEXTS
        && subscription.len() <= MAX_TEXTS - topic.len()
        && name.len() <= MAX_TEXTS - topic.len() - subscription.len()
}

// Writes an identity to the front of the store: lengths, kind, then the texts.
fn write_identity(
    topic: &[u8],
    subscription: &[u8],
    name: &[u8],
    kind: ScalableConsumerType,
    store: &mut [u8],
)
    requires name_len_bound { length topic.now + length subscription.now + length name.now ≤ max_texts }
    requires min_store_in_bounds { min_store ≤ length store.old }
    ensures { store.new ≡ put store.old 0 (encode_identity (record { topic = topic.now; subscription = subscription.now; consumer_name = name.now; consumer_type = kind })) }
{
    let second = IDENTITY_HEAD + topic.len();
    let third = second + subscription.len();
    slice_int::put_bytes(store, third, name);
    slice_int::put_bytes(store, second, subscription);
    slice_int::put_bytes(store, IDENTITY_HEAD, topic);
    store[KIND] = kind_byte(kind);
    slice_int::write_u16(store, NAME_LENGTH, name.len() as u16);
    slice_int::write_u16(store, SUBSCRIPTION_LENGTH, subscription.len() as u16);
    slice_int::write_u16(store, 0, topic.len() as u16);
}

// The record of a session that was just opened.
pub fn fresh(consumer_id: u64, incarnation: ControllerIncarnation) -> SessionRecord
    ensures { result ≡ fresh_record consumer_id incarnation }
{
    SessionRecord {
        consumer_id,
        incarnation,
        registered: false,
        invalidated: false,
        epoch_floor: None,
        queue_count: 0,
        drain_positions: [0; READERS],
    }
}

// Opens a session on a store: writes its identity and answers a fresh record. Tested in order: the store's length (1), UTF-8 of the texts (7), their lengths
// together (8). A refusal leaves the store as it was, and the record beside it is no session's.
pub fn open(
    consumer_id: u64,
    incarnation: ControllerIncarnation,
    topic: &[u8],
    subscription: &[u8],
    name: &[u8],
    kind: ScalableConsumerType,
    store: &mut [u8],
) -> Changed
    ensures { record { answer = result.answer; next = result.next; store = store.new } ≡ open_outcome consumer_id incarnation (record { topic = topic.now; subscription = subscription.now; consumer_name = name.now; consumer_type = kind }) store.old }
{
    let next = fresh(consumer_id, incarnation);
    if store.len() < MIN_STORE {
        return session_record::refuse(next, Refusal::StoreTooShort);
    }
    if !utf8::is_utf8(topic) {
        return session_record::refuse(next, Refusal::InvalidUtf8);
    }
    if !utf8::is_utf8(subscription) {
        return session_record::refuse(next, Refusal::InvalidUtf8);
    }
    if !utf8::is_utf8(name) {
        return session_record::refuse(next, Refusal::InvalidUtf8);
    }
    if !texts_fit(topic, subscription, name) {
        return session_record::refuse(next, Refusal::IdentityTooLong);
    }
    write_identity(topic, subscription, name, kind, store);
    Changed {
        next,
        answer: Ok(Answer::Accepted),
    }
}

// The identity in the slot s has these texts and this kind.
fn same_identity(
    s: &[u8],
    topic: &[u8],
    subscription: &[u8],
    name: &[u8],
    kind: ScalableConsumerType,
) -> bool
    requires s_len { length s.now ≡ slot_size }
    requires s_value { is_identity s.now ≡ true }
    ensures { result ≡ same_identity s.now (record { topic = topic.now; subscription = subscription.now; consumer_name = name.now; consumer_type = kind }) }
{
    let second = IDENTITY_HEAD + slice_int::read_u16(s, 0) as usize;
    let third = second + slice_int::read_u16(s, SUBSCRIPTION_LENGTH) as usize;
    let end = third + slice_int::read_u16(s, NAME_LENGTH) as usize;
    if !slice::same(&s[IDENTITY_HEAD..second], topic) {
        return false;
    }
    if !slice::same(&s[second..third], subscription) {
        return false;
    }
    if !slice::same(&s[third..end], name) {
        return false;
    }
    s[KIND] == kind_byte(kind)
}

// Whether the registration is the one that the store was opened for. Tested in order: the store's length (1), its identity (22).
pub fn matches_registration(
    store: &[u8],
    topic: &[u8],
    subscription: &[u8],
    name: &[u8],
    kind: ScalableConsumerType,
) -> Result<bool, Refusal>
    ensures { result ≡ match_of store.now (record { topic = topic.now; subscription = subscription.now; consumer_name = name.now; consumer_type = kind }) }
{
    if store.len() < MIN_STORE {
        return Err(Refusal::StoreTooShort);
    }
    if !session_store::is_identity(&store[0..packed::SLOT]) {
        return Err(Refusal::MalformedStore);
    }
    Ok(same_identity(&store[0..packed::SLOT], topic, subscription, name, kind))
}
