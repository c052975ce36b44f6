// The topics watch: takes an update to a lent set of topics, and says what changed. `ScalableTopicsWatch::handle_update`.
#![tactic(auto)]

ghost use Rattle.std.specs.Prelude.{◌≡◌, true, ◌&&◌, ◌+◌, ◌^◌, ◌≤◌, ◌<◌, length, take, leb, ltb};
ghost use Rattle.slice_int.specs.Put.{put};
ghost use Rattle.wire_readers.specs.Messages.{watch_update_of};
ghost use Rattle.watch_topics.specs.Topics.{insert_all, sorted, all_short};
ghost use Rattle.watch_topics.specs.Packed.{decode_topics, encode_topics, size_topics, is_set};
ghost use Rattle.watch_window.specs.Lists.{named_in};
ghost use Rattle.watch_window.specs.Window.{SortedOf};
ghost use Rattle.watch_merge.specs.Merge.{Apart, Rises};
ghost use Rattle.watch_sort.specs.Chunks.{SortedTo};
ghost use Rattle.watch.specs.Watch.{snapshot_in, diff_in, outcome, done, settle, no_event, for_watch, handle_update};
ghost use Rattle.watch.specs.Steps.{rest, added_in, removed_in, OutFits, DiffFits, RoomIs};

use refusal::Refusal;
use watch_chunks::Lists;
use watch_lists::FEW_BYTES;
use watch_window::{Listing, Sorted};
use wire_readers::Event;
use wire_schema::MessageKind;

// The topics of a snapshot as the set at the front of buffer. Answers its length. The bytes of spare up to that length may change.
fn write_topics(order: Sorted, buffer: &mut [u8], p: &[u8], spare: &mut [u8]) -> usize
    requires sorted_of { SortedOf 2 p.now order }
    requires p_value { all_short (named_in 2 1 p.now) ≡ true }
    requires p_in_bounds { size_topics (sorted (named_in 2 1 p.now)) ≤ length buffer.old }
    requires p_in_bounds_2 { size_topics (sorted (named_in 2 1 p.now)) ≤ length spare.old }
    ensures { SortedTo (named_in 2 1 p.now) buffer.old spare.old buffer.new spare.new result }
{
    if order.added {
        return watch_sort::write_all(p, 2, 1, buffer);
    }
    if p.len() < FEW_BYTES {
        return watch_lists::write_list(Listing::Added, order, &p[..0], p, 2, buffer);
    }
    watch_sort::write_sorted(p, 2, 1, buffer, spare)
}

// The topics of a snapshot, as the set at the front of buffer and as the output. Answers the length of the set.
fn write_snapshot(buffer: &mut [u8], order: Sorted, p: &[u8], out: &mut [u8]) -> usize
    requires sorted_of { SortedOf 2 p.now order }
    requires p_value { all_short (named_in 2 1 p.now) ≡ true }
    requires p_in_bounds { size_topics (sorted (named_in 2 1 p.now)) ≤ length buffer.old }
    requires p_in_bounds_2 { size_topics (sorted (named_in 2 1 p.now)) < length out.old }
    ensures { (buffer.new ≡ put buffer.old 0 (encode_topics (sorted (named_in 2 1 p.now))))
        × (out.new ≡ put out.old 0 (snapshot_in p.now).output)
        × (result ≡ size_topics (sorted (named_in 2 1 p.now))) }
{
    let n = write_topics(order, buffer, p, out);
    slice_int::put_bytes(out, 1, &buffer[..n]);
    out[0] = 0;
    n
}

// A list that is packed is no longer than the n bytes of the message in which its topics stand: it fits without being measured.
fn fits_whole(n: usize, set: usize, out: usize) -> bool
    ensures { result ≡ true → (n ≤ set) × (n < out) }
{
    n <= set && n < out
}

// The set and the output of a snapshot. Answers their lengths in bytes, or why nothing was changed.
fn snapshot(buffer: &mut [u8], p: &[u8], out: &mut [u8]) -> Result<(usize, usize), Refusal>
    ensures { (result ≡ (settle buffer.old out.old (snapshot_in p.now)).answer)
        × (buffer.new ≡ (settle buffer.old out.old (snapshot_in p.now)).buffer)
        × (out.new ≡ (settle buffer.old out.old (snapshot_in p.now)).out) }
{
    let s = watch_lists::survey(p, 2, 1);
    if !s.short {
        return Err(Refusal::SetTooLong);
    }
    let order = Sorted {
        added: s.rises,
        removed: false,
    };
    if fits_whole(p.len(), buffer.len(), out.len()) {
        let n = write_snapshot(buffer, order, p, out);
        return Ok((n, 1 + n));
    }
    let z = watch_lists::measure(Listing::Added, order, &p[..0], p, 2);
    if buffer.len() < z {
        return Err(Refusal::SetTooLong);
    }
    if out.len() <= z {
        return Err(Refusal::ResultTooLong);
    }
    write_snapshot(buffer, order, p, out);
    Ok((z, 1 + z))
}

// The output of a diff, which fits. Answers the lengths of its lists.
fn write_lists(set: &[u8], order: Sorted, p: &[u8], out: &mut [u8]) -> Lists
    requires set_value { is_set set.now ≡ true }
    requires sorted_of { SortedOf 3 p.now order }
    requires p_value { (all_short (named_in 3 1 p.now) ≡ true) × (all_short (named_in 3 2 p.now) ≡ true) }
    requires out_fits { OutFits (decode_topics set.now) p.now (length out.old) }
    ensures { (result.added ≡ size_topics (added_in (decode_topics set.now) p.now))
        × (result.removed ≡ size_topics (removed_in (decode_topics set.now) p.now))
        × (out.new ≡ put out.old 0 (diff_in (decode_topics set.now) p.now).output) }
{
    let l = watch_chunks::write_lists(order, set, p, 3, &mut out[5..]);
    slice_int::write_u32(out, 1, l.added as u32);
    out[0] = 1;
    l
}

// The set at the front of buffer after a diff, whose lists stand packed in `added` and `removed`. Answers its length.
fn write_set(buffer: &mut [u8], used: usize, added: &[u8], removed: &[u8]) -> usize
    requires used_in_bounds { used ≤ length buffer.old }
    requires buffer_value { is_set (take used buffer.old) ≡ true }
    requires rises { Rises added.now × Rises removed.now }
    requires apart { Apart (decode_topics added.now) (rest buffer.old used removed.now) }
    requires added_in_bounds { size_topics (rest buffer.old used removed.now) + length added.now ≤ length buffer.old }
    ensures { (result ≡ size_topics (rest buffer.old used removed.now) + length added.now)
        × (buffer.new ≡ put buffer.old 0
        (encode_topics (insert_all (decode_topics added.now) (rest buffer.old used removed.now)))) }
{
    let k = watch_merge::take_out(&mut buffer[..used], removed);
    watch_merge::merge(buffer, k, added)
}

// The output of a diff fits: its added list has z bytes, its removed list gone.
fn fits(z: usize, gone: usize, room: usize) -> bool
    ensures { result ≡ (ltb z (2 ^ 32) && leb (5 + z + gone) room) }
{
    if 4294967295 < z {
        return false;
    }
    if room < 5 {
        return false;
    }
    if room - 5 < z {
        return false;
    }
    gone <= room - 5 - z
}

// The set and the output of a diff, both of which fit. Answers their lengths in bytes.
fn write_diff(
    buffer: &mut [u8],
    used: usize,
    order: Sorted,
    p: &[u8],
    out: &mut [u8],
) -> Result<(usize, usize), Refusal>
    requires used_in_bounds { used ≤ length buffer.old }
    requires buffer_value { is_set (take used buffer.old) ≡ true }
    requires sorted_of { SortedOf 3 p.now order }
    requires p_value { (all_short (named_in 3 1 p.now) ≡ true) × (all_short (named_in 3 2 p.now) ≡ true) }
    requires diff_fits { DiffFits (decode_topics (take used buffer.old)) p.now (length buffer.old) (length out.old) }
    ensures { (result ≡ (done buffer.old out.old (diff_in (decode_topics (take used buffer.old)) p.now)).answer)
        × (buffer.new ≡ (done buffer.old out.old (diff_in (decode_topics (take used buffer.old)) p.now)).buffer)
        × (out.new ≡ (done buffer.old out.old (diff_in (decode_topics (take used buffer.old)) p.now)).out) }
{
    let l = write_lists(&buffer[..used], order, p, out);
    let at = 5 + l.added;
    let end = at + l.removed;
    let n = write_set(buffer, used, &out[5..at], &out[at..end]);
    Ok((n, end))
}

// Both lists of a diff, packed, are together no longer than the n bytes of the message: so the set and the output fit without being measured.
fn fits_lists(n: usize, set: usize, out: usize) -> bool
    ensures { result ≡ true → (n ≤ set) × (n < 2 ^ 32) × (5 + n ≤ out) }
{
    if set < n {
        return false;
    }
    if 4294967295 < n {
        return false;
    }
    if out < 5 {
        return false;
    }
    n <= out - 5
}

// Refuses a diff whose set is longer than its buffer, or whose output is longer than its own, of so many bytes.
fn room_for(set: &[u8], order: Sorted, p: &[u8], room: usize, out: usize) -> Result<(), Refusal>
    requires set_len_bound { length set.now ≤ room }
    requires set_value { is_set set.now ≡ true }
    requires sorted_of { SortedOf 3 p.now order }
    ensures { RoomIs (decode_topics set.now) p.now room out result }
{
    if fits_lists(p.len(), room - set.len(), out) {
        return Ok(());
    }
    let gone = watch_lists::measure(Listing::Removed, order, set, p, 3);
    let z = watch_lists::measure(Listing::Added, order, set, p, 3);
    if room - (set.len() - gone) < z {
        return Err(Refusal::SetTooLong);
    }
    if !fits(z, gone, out) {
        return Err(Refusal::ResultTooLong);
    }
    Ok(())
}

// The set and the output of a diff. Answers their lengths in bytes, or why nothing was changed.
fn diff(buffer: &mut [u8], used: usize, p: &[u8], out: &mut [u8]) -> Result<(usize, usize), Refusal>
    requires used_in_bounds { used ≤ length buffer.old }
    requires buffer_value { is_set (take used buffer.old) ≡ true }
    ensures { (result ≡ (settle buffer.old out.old (diff_in (decode_topics (take used buffer.old)) p.now)).answer)
        × (buffer.new ≡ (settle buffer.old out.old (diff_in (decode_topics (take used buffer.old)) p.now)).buffer)
        × (out.new ≡ (settle buffer.old out.old (diff_in (decode_topics (take used buffer.old)) p.now)).out) }
{
    let a = watch_lists::survey(p, 3, 1);
    if !a.short {
        return Err(Refusal::SetTooLong);
    }
    let r = watch_lists::survey(p, 3, 2);
    if !r.short {
        return Err(Refusal::SetTooLong);
    }
    let order = Sorted {
        added: a.rises,
        removed: r.rises,
    };
    let room = buffer.len();
    room_for(&buffer[..used], order, p, room, out.len())?;
    write_diff(buffer, used, order, p, out)
}

fn no_event(id: u64, error: Option<i32>) -> Refusal
    ensures { result ≡ no_event id error }
{
    match error {
        Some(code) => Refusal::Broker { code },
        None => Refusal::EmptyUpdate { watch_id: id },
    }
}

// The update of a message without a fault. Answers the lengths in bytes of the set and of the output, or why nothing was changed.
fn update(
    id: u64,
    buffer: &mut [u8],
    used: usize,
    message: &[u8],
    out: &mut [u8],
) -> Result<(usize, usize), Refusal>
    requires used_in_bounds { used ≤ length buffer.old }
    requires buffer_value { is_set (take used buffer.old) ≡ true }
    ensures { (result ≡ (for_watch buffer.old out.old id (decode_topics (take used buffer.old)) (watch_update_of message.now)).answer)
        × (buffer.new ≡ (for_watch buffer.old out.old id (decode_topics (take used buffer.old)) (watch_update_of message.now)).buffer)
        × (out.new ≡ (for_watch buffer.old out.old id (decode_topics (take used buffer.old)) (watch_update_of message.now)).out) }
{
    let head = wire_readers::read_watch_update(message);
    let got = head.watch_id;
    if got != id {
        return Err(Refusal::WatchMismatch { got, expected: id });
    }
    let Some(event) = head.event else {
        return Err(no_event(got, head.error));
    };
    match event {
        Event::Snapshot(base) => snapshot(buffer, &message[base..], out),
        Event::Diff(base) => diff(buffer, used, &message[base..], out),
    }
}

// Takes an update to the set of `used` bytes at the front of buffer. Answers the lengths in bytes of the new set and of the output, or why
// nothing was changed.
pub fn handle_update(
    watch_id: u64,
    buffer: &mut [u8],
    used: usize,
    message: &[u8],
    out: &mut [u8],
) -> Result<(usize, usize), Refusal>
    ensures { outcome result buffer.new out.new
        ≡ handle_update buffer.old out.old watch_id used message.now }
{
    if buffer.len() < used {
        return Err(Refusal::MalformedSet);
    }
    if !watch_topics::is_set(&buffer[..used]) {
        return Err(Refusal::MalformedSet);
    }
    wire_messages::first_fault(MessageKind::CommandWatchScalableTopicsUpdate, message)?;
    update(watch_id, buffer, used, message, out)
}

// The broker's text of a message that `handle_update` refused with `Broker`: a part of the message, never of the set.
pub fn broker_text<'m, 's>(message: &'m [u8], set: &'s [u8]) -> &'m [u8]
    ensures { result.now ≡ (watch_update_of message.now).message }
{
    wire_readers::watch_text(message, set)
}
