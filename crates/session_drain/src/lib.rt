// Drain: the pushes of the queue handed out one by one, `take_replayed_updates`.
#![tactic(auto)]

ghost use Rattle.std.specs.Prelude.{◌≡◌, ◌≤◌};
ghost use Rattle.session.specs.Store.{list_in, queue_in};
ghost use Rattle.session.specs.Drain.{next_change};
ghost use Rattle.session.specs.Calls.{call_outcome, drain_outcome};
ghost use Rattle.session_drain.specs.Entries.{found_at, Entries, Reaches};

use packed::SLOT;
use packed_queue::LENGTH;
use refusal::Refusal;
use session::{Answer, Changed, READERS, SessionRecord};
use session_store::MIN_STORE;

// What a walk over the queue reached: entry i begins at the byte place `at`, and the list before it lies in `before..until`.
#[derive(Clone, Copy)]
struct Reached {
    i: usize,
    at: usize,
    before: usize,
    until: usize,
}

// Entry i of a queue of n, by the lengths of those before it.
fn skip_to(store: &[u8], i: usize, n: usize) -> Reached
    requires entries { Entries store.now n }
    requires i_le_n { i ≤ n }
    ensures { Reaches store.now result × (result.i ≡ i) }
{
    let mut before = SLOT;
    let mut until = 2 * SLOT;
    let mut at = MIN_STORE;
    for _ in 0..i {
        let size = slice_int::read_u16(store, at) as usize;
        before = at + LENGTH;
        until = before + size;
        at = until;
    }
    Reached {
        i,
        at,
        before,
        until,
    }
}

// The next of n queue entries, from one on, that differs from its predecessor; the queue's end where there is none.
fn next_change(store: &[u8], from: usize, n: usize) -> Reached
    requires entries { Entries store.now n }
    requires from_le_n { from ≤ n }
    ensures reaches { Reaches store.now result × (result.i ≤ n) }
    ensures from_value { next_change 0 (list_in store.now 1) (queue_in store.now n) from ≡ found_at store.now n result.i }
{
    let first = skip_to(store, from, n);
    let mut before = first.before;
    let mut until = first.until;
    let mut at = first.at;
    for i in first.i..n {
        let size = slice_int::read_u16(store, at) as usize;
        let place = at + LENGTH;
        let end = place + size;
        if !packed_records::same_assignment(&store[before..until], &store[place..end]) {
            return Reached {
                i,
                at,
                before,
                until,
            };
        }
        before = place;
        until = end;
        at = end;
    }
    Reached {
        i: n,
        at,
        before,
        until,
    }
}

// The next entry of the queue, from a reader's position on, that differs from its predecessor: its place in the store, and the delta in the output. Refused in
// order: 1, 2, 33, 22.
pub fn drained(r: SessionRecord, store: &[u8], reader: usize, out: &mut [u8]) -> Changed
    ensures { call_outcome result.answer result.next store.now out.new ≡ drain_outcome r store.now reader out.old }
{
    if store.len() < MIN_STORE {
        return session_record::refuse(r, Refusal::StoreTooShort);
    }
    if out.len() < packed_diff::LONGEST {
        return session_record::refuse(r, Refusal::OutputTooShort);
    }
    if READERS <= reader {
        return session_record::refuse(r, Refusal::UnknownReader);
    }
    if !session_store::is_sound(r, store) {
        return session_record::refuse(r, Refusal::MalformedStore);
    }
    if !r.registered {
        return session_record::unchanged(r);
    }
    let n = r.queue_count;
    let found = next_change(store, session_record::position(r, reader), n);
    if found.i == n {
        let next = session_record::with_position(r, reader, n);
        return session_record::unchanged(next);
    }
    let before = found.before;
    let until = found.until;
    let size = slice_int::read_u16(store, found.at) as usize;
    let place = found.at + LENGTH;
    let end = place + size;
    let len = packed_diff::write_delta(&store[before..until], &store[place..end], out);
    let next = session_record::with_position(r, reader, found.i + 1);
    Changed {
        next,
        answer: Ok(Answer::Replay(place, len)),
    }
}
