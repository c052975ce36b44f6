// The store of a session where it lies: its slots, its queue, and the test that every call makes first, 22.
//
// Every slot and entry in use is read on every call, once; a packed assignment whose buckets rise takes one pass.
#![tactic(auto)]

ghost use Rattle.std.specs.Prelude.{◌≡◌, true, not, ◌+◌, ◌*◌, ◌≤◌, ◌<◌, length};
ghost use Rattle.slice_int.specs.Put.{put};
ghost use Rattle.packed.specs.Assignment.{slot_size, encode_assignment, decode_assignment, starts_assignment};
ghost use Rattle.packed_queue.specs.Entries.{encode_entry};
ghost use Rattle.session.specs.Store.{min_store, slot};
ghost use Rattle.session.specs.Identity.{is_identity};
ghost use Rattle.session.specs.Session.{lists_start, view, any_beyond, damaged};
ghost use Rattle.session_store.specs.Scratch.{Scratch};
ghost use Rattle.session_store.specs.Tests.{StoreTested};

use packed::SLOT;
use packed_queue::LENGTH;
use session::SessionRecord;

// The least store: three slots.
pub const MIN_STORE: usize = 6144;

// The bytes before the texts of an identity: their lengths and the kind; of its texts together at most.
pub const IDENTITY_HEAD: usize = 7;

pub const MAX_TEXTS: usize = SLOT - IDENTITY_HEAD;

// Places in an identity: of the lengths of the subscription and of the name, behind that of the topic; of the kind.
pub const SUBSCRIPTION_LENGTH: usize = 2;

pub const NAME_LENGTH: usize = 4;

pub const KIND: usize = 6;

// The slots behind the identity's, by their numbers.
pub const BASELINE: usize = 1;

pub const LIST: usize = 2;

// The most pushes that a queue holds.
pub const MAX_QUEUE: usize = 1024;

// The slot s holds an identity.
pub fn is_identity(s: &[u8]) -> bool
    requires { length s.now ≡ slot_size }
    ensures { result ≡ is_identity s.now }
{
    if 1 < s[KIND] {
        return false;
    }
    let topic = slice_int::read_u16(s, 0) as usize;
    let subscription = slice_int::read_u16(s, SUBSCRIPTION_LENGTH) as usize;
    let name = slice_int::read_u16(s, NAME_LENGTH) as usize;
    if MAX_TEXTS < topic + subscription + name {
        return false;
    }
    let second = IDENTITY_HEAD + topic;
    let third = second + subscription;
    if !utf8::is_utf8(&s[IDENTITY_HEAD..second]) {
        return false;
    }
    if !utf8::is_utf8(&s[second..third]) {
        return false;
    }
    utf8::is_utf8(&s[third..third + name])
}

// Slot k starts with a packed assignment.
fn starts(store: &[u8], k: usize) -> bool
    requires { slot_size * k + slot_size ≤ length store.now }
    ensures { result ≡ starts_assignment (slot store.now k) }
{
    let at = SLOT * k;
    packed::is_front(&store[at..at + SLOT])
}

// Baseline and list are packed assignments, when registered.
fn lists_start(registered: bool, store: &[u8]) -> bool
    requires { min_store ≤ length store.now }
    ensures { result ≡ lists_start registered store.now }
{
    !registered || starts(store, BASELINE) && starts(store, LIST)
}

// A reader's position is beyond the queue.
fn any_beyond(r: SessionRecord) -> bool
    ensures { result ≡ any_beyond 8 r.queue_count r.drain_positions }
{
    let count = r.queue_count;
    r.drain_positions.iter().any(|p| count < *p)
}

// Tests that no slot or entry in use is malformed, and no count is beyond what it counts: the byte place where the queue ends, or None where something is. The
// counts come first: a damaged one could be any number.
pub fn test_store(r: SessionRecord, store: &[u8]) -> Option<usize>
    requires { min_store ≤ length store.now }
    ensures { StoreTested r store.now result }
{
    if MAX_QUEUE < r.queue_count {
        return None;
    }
    if any_beyond(r) {
        return None;
    }
    if !is_identity(&store[0..SLOT]) {
        return None;
    }
    if !lists_start(r.registered, store) {
        return None;
    }
    let size = packed_queue::read_entries(&store[MIN_STORE..], r.queue_count)?;
    Some(MIN_STORE + size)
}

// The same test, for a call that adds nothing to the queue.
pub fn is_sound(r: SessionRecord, store: &[u8]) -> bool
    requires { min_store ≤ length store.now }
    ensures { result ≡ not (damaged (view r store.now)) }
{
    test_store(r, store).is_some()
}

// Writes the packed assignment of n bytes at the front of b to slot k.
pub fn write_slot(store: &mut [u8], k: usize, b: &[u8], n: usize)
    requires slot_size_in_bounds { slot_size * k + slot_size ≤ length store.old }
    requires scratch { Scratch b.now n }
    ensures { store.new ≡ put store.old (slot_size * k) (encode_assignment (decode_assignment b.now)) }
{
    slice_int::put_bytes(store, SLOT * k, &b[..n]);
}

// Writes the packed assignment of n bytes at the front of b, behind its length, to a byte place.
pub fn push(store: &mut [u8], at: usize, b: &[u8], n: usize)
    requires n_in_bounds { at + (2 + n) ≤ length store.old }
    requires scratch { Scratch b.now n }
    ensures { store.new ≡ put store.old at (encode_entry (decode_assignment b.now)) }
{
    slice_int::write_u16(store, at, n as u16);
    slice_int::put_bytes(store, at + LENGTH, &b[..n]);
}
