// A session saved as bytes, and taken back: record and what is in use of its store, with a length and a checksum (specs/Form).
#![tactic(auto)]

ghost use Rattle.std.specs.Prelude.{◌≡◌, ◌+◌, ◌≤◌, length, Err};
ghost use Rattle.slice_int.specs.Be.{be_at};
ghost use Rattle.slice_int.specs.Put.{put};
ghost use Rattle.output.specs.Output.{outcome, written};
ghost use Rattle.session.specs.Store.{min_store};
ghost use Rattle.session_store.specs.Places.{QueueEnds};
ghost use Rattle.session_saved.specs.Form.{encode_positions, encode_record, encode_saved, record_in, is_saved};
ghost use Rattle.session_saved.specs.Saved.{no_session, save_outcome, restore_part, restore_outcome};

use export_record::Record;
use refusal::Refusal;
use session::{Answer, Changed, READERS, SessionRecord};
use session_store::MIN_STORE;
use topic_types::ControllerIncarnation;

// "CUD1", the first 4 bytes.
const MARK: u32 = 0x43554431;

// Bytes before the store's part, and of the checksum behind it.
pub const HEAD: usize = 107;

const SUM: usize = 4;

// What a form is longer than its store's part.
pub const FRAME: usize = HEAD + SUM;

// Writes the eight positions to their place.
fn write_positions(positions: [usize; READERS], out: &mut [u8])
    requires { 104 ≤ length out.old }
    ensures { out.new ≡ put out.old 40 (encode_positions 8 positions) }
{
    for k in 0..READERS {
        slice_int::write_u64(out, 40 + 8 * k, positions[k] as u64);
    }
}

// Writes the record to its place.
fn write_record(r: Record, out: &mut [u8])
    requires { 107 ≤ length out.old }
    ensures { out.new ≡ put out.old 8 (encode_record r) }
{
    out[106] = r.invalidated;
    out[105] = r.registered;
    out[104] = r.has_floor;
    write_positions(r.drain_positions, out);
    slice_int::write_u64(out, 32, r.queue_count as u64);
    slice_int::write_u64(out, 24, r.epoch_floor);
    slice_int::write_u64(out, 16, r.incarnation);
    slice_int::write_u64(out, 8, r.consumer_id);
}

// Writes the session of a store that is sound, whose queue ends at a place: 21 where the output does not hold it.
fn write_saved(r: SessionRecord, store: &[u8], end: usize, out: &mut [u8]) -> Result<usize, Refusal>
    requires queue_ends { QueueEnds store.now r.queue_count end }
    requires end_bound { end ≤ 2105344 }
    ensures { outcome result out.new ≡ written (encode_saved r store.now) out.old }
{
    let size = end + FRAME;
    if out.len() < size {
        return Err(Refusal::ResultTooLong);
    }
    slice_int::put_bytes(out, HEAD, &store[..end]);
    write_record(export_record::export_record(r), out);
    slice_int::write_u32(out, 4, size as u32);
    slice_int::write_u32(out, 0, MARK);
    let sum = crc32::crc32(&out[..size - SUM]);
    slice_int::write_u32(out, size - SUM, sum);
    Ok(size)
}

// Writes a session to the front of the output. Tested in order: the store's length (1), what is in use of it (22), the output's room (21). A refusal
// leaves the output as it was.
pub fn save(r: SessionRecord, store: &[u8], out: &mut [u8]) -> Result<usize, Refusal>
    ensures { outcome result out.new ≡ save_outcome r store.now out.old }
{
    if store.len() < MIN_STORE {
        return Err(Refusal::StoreTooShort);
    }
    let end = session_store::test_store(r, store).ok_or(Refusal::MalformedStore)?;
    write_saved(r, store, end, out)
}

// The bytes have mark, length and checksum of a saved session.
fn is_saved(bytes: &[u8]) -> bool
    ensures { result ≡ is_saved bytes.now }
{
    let size = bytes.len();
    if size < FRAME + MIN_STORE {
        return false;
    }
    if slice_int::read_u32(bytes, 0) != MARK {
        return false;
    }
    if slice_int::read_u32(bytes, 4) as usize != size {
        return false;
    }
    slice_int::read_u32(bytes, size - SUM) == crc32::crc32(&bytes[..size - SUM])
}

// A position of a reader, from a place on.
fn position_at(bytes: &[u8], at: usize) -> usize
    requires { at + 8 ≤ length bytes.now }
    ensures { result ≡ be_at 8 bytes.now at }
{
    slice_int::read_u64(bytes, at) as usize
}

// The record in a form.
fn read_record(bytes: &[u8]) -> Record
    requires { 107 ≤ length bytes.now }
    ensures { result ≡ record_in bytes.now }
{
    let drain_positions = [
        position_at(bytes, 40),
        position_at(bytes, 48),
        position_at(bytes, 56),
        position_at(bytes, 64),
        position_at(bytes, 72),
        position_at(bytes, 80),
        position_at(bytes, 88),
        position_at(bytes, 96),
    ];
    Record {
        consumer_id: slice_int::read_u64(bytes, 8),
        incarnation: slice_int::read_u64(bytes, 16),
        epoch_floor: slice_int::read_u64(bytes, 24),
        queue_count: position_at(bytes, 32),
        drain_positions,
        has_floor: bytes[104],
        registered: bytes[105],
        invalidated: bytes[106],
    }
}

// A refusal of restore: the record beside it is no session's.
fn refused(x: Refusal) -> Changed
    ensures { result ≡ record { next = no_session; answer = Err x } }
{
    session_record::refuse(session_open::fresh(0, ControllerIncarnation(0)), x)
}

// Writes the part of a form, whose record is next, to the front of the store: 22 where the two are damaged, 1 where the store is shorter.
fn put_part(next: SessionRecord, part: &[u8], store: &mut [u8]) -> Changed
    requires { min_store ≤ length part.now }
    ensures { record { answer = result.answer; next = result.next; store = store.new } ≡ restore_part next part.now store.old }
{
    if !session_store::is_sound(next, part) {
        return refused(Refusal::MalformedStore);
    }
    if store.len() < part.len() {
        return refused(Refusal::StoreTooShort);
    }
    slice_int::put_bytes(store, 0, part);
    Changed {
        next,
        answer: Ok(Answer::Accepted),
    }
}

// Takes a saved session back: writes its part to the front of the store and answers its record. Tested in order: the form (64), record and part in it
// (22), the store's length (1). A refusal leaves the store as it was, and the record beside it is no session's.
pub fn restore(bytes: &[u8], store: &mut [u8]) -> Changed
    ensures { record { answer = result.answer; next = result.next; store = store.new } ≡ restore_outcome bytes.now store.old }
{
    if !is_saved(bytes) {
        return refused(Refusal::MalformedSave);
    }
    let next = export_record::record_of(read_record(bytes));
    let end = bytes.len() - SUM;
    put_part(next, &bytes[HEAD..end], store)
}
