// The messages read: what an update, a response, a bucket range and a watch update say, and the head of a segment.
//
// The readers ask nothing of an earlier pass: see specs/Messages. Each number has a walk of its own: a message has few fields, and its parts are passed over
// unread. Segments are gone over by `wire_values::next_inner` (field 2 of an update's field 2 or a response's field 4), a segment's own fields by
// `intake_scan::scan_segment`; texts are parts of the message (`wire_values::text`).
#![tactic(auto)]

ghost use Rattle.std.specs.Prelude.{◌≡◌};
ghost use Rattle.wire.specs.Fields.{fields_of};
ghost use Rattle.wire_values.specs.Values.{numbers_of, last_of};
ghost use Rattle.wire_readers.specs.Messages.{int_range_of, code_of, response_of, read_event, watch_update_of};
ghost use Rattle.wire_readers.specs.Places.{head_of, UpdateIs, ResponseIs, EventIs, snapshot_from, diff_from, WatchIs};

use wire_values::Front;

// The ends of a bucket range, as they came.
#[derive(Clone, Copy)]
pub struct IntRange {
    pub start: i32,
    pub end: i32,
}

// A segment's numbers, and the place and length of its topic.
#[derive(Clone, Copy)]
pub struct SegmentHead {
    pub segment_id: u64,
    pub hash_start: u32,
    pub hash_end: u32,
    pub topic_start: usize,
    pub topic_len: usize,
}

// The event of a watch update: the place in the message from which on its parts are those of field 2, or of field 3.
#[derive(Clone, Copy)]
pub enum Event {
    Snapshot(usize),
    Diff(usize),
}

// The bucket range in the part p.
pub fn read_range(p: &[u8]) -> IntRange
    ensures { result ≡ int_range_of p.now }
{
    let start = wire_values::int32(wire_values::number(p, 1));
    let end = wire_values::int32(wire_values::number(p, 2));
    IntRange { start, end }
}

// A segment's head, from the numbers of its fields and the place of its topic.
pub fn segment_head(numbers: [u64; 4], start: usize, len: usize) -> SegmentHead
    ensures { result ≡ head_of numbers start len }
{
    let hash_start = wire_values::uint32(numbers[2]);
    let hash_end = wire_values::uint32(numbers[3]);
    SegmentHead {
        segment_id: numbers[1],
        hash_start,
        hash_end,
        topic_start: start,
        topic_len: len,
    }
}

// An update's numbers.
#[derive(Clone, Copy)]
pub struct UpdateHead {
    pub consumer_id: u64,
    pub layout_epoch: u64,
}

// The numbers of the update m.
pub fn read_update(m: &[u8]) -> UpdateHead
    ensures { UpdateIs m.now result }
{
    let consumer_id = wire_values::number(m, 1);
    let layout_epoch = wire_values::inner_number(m, 2, 1);
    UpdateHead {
        consumer_id,
        layout_epoch,
    }
}

// The error code that field n of the message m holds; None where it is absent.
fn error_code(m: &[u8], n: u64) -> Option<i32>
    ensures { result ≡ code_of (last_of (numbers_of n (fields_of m.now))) }
{
    let v = wire_values::last_number(m, n)?;
    Some(wire_values::int32(v))
}

// A response's numbers, and whether it has an assignment.
#[derive(Clone, Copy)]
pub struct ResponseHead {
    pub request_id: u64,
    pub error: Option<i32>,
    pub has_assignment: bool,
    pub layout_epoch: u64,
}

// The numbers of the response m.
pub fn read_response(m: &[u8]) -> ResponseHead
    ensures { ResponseIs m.now result }
{
    let request_id = wire_values::number(m, 1);
    let error = error_code(m, 2);
    let has_assignment = wire_values::has_part(m, 4);
    let layout_epoch = wire_values::inner_number(m, 4, 1);
    ResponseHead {
        request_id,
        error,
        has_assignment,
        layout_epoch,
    }
}

// The response's text, a part of the message.
pub fn response_text<'m, 's>(message: &'m [u8], store: &'s [u8]) -> &'m [u8]
    ensures { result.now ≡ (response_of message.now).message }
{
    wire_values::text(message, store, 3)
}

// A watch update's numbers and its event; None where it has no event, or no error.
#[derive(Clone, Copy)]
pub struct WatchHead {
    pub watch_id: u64,
    pub event: Option<Event>,
    pub error: Option<i32>,
}

// The event with one more snapshot, in the field at a place.
fn snapshot_from(event: Option<Event>, at: usize) -> Option<Event>
    ensures { result ≡ snapshot_from event at }
{
    match event {
        None => Some(Event::Snapshot(at)),
        Some(Event::Snapshot(base)) => Some(Event::Snapshot(base)),
        Some(Event::Diff(_)) => Some(Event::Snapshot(at)),
    }
}

// .. and with one more diff.
fn diff_from(event: Option<Event>, at: usize) -> Option<Event>
    ensures { result ≡ diff_from event at }
{
    match event {
        None => Some(Event::Diff(at)),
        Some(Event::Snapshot(_)) => Some(Event::Diff(at)),
        Some(Event::Diff(base)) => Some(Event::Diff(base)),
    }
}

// The event of the watch update m: its last parts of field 2 or 3 that have no part of the other between them.
fn read_event(m: &[u8]) -> Option<Event>
    ensures { EventIs m.now (read_event (fields_of m.now)) result }
{
    let mut event = None;
    let mut at: usize = 0;
    while at < m.len() {
        match wire_values::read_front(&m[at..]) {
            None => return event,
            Some(Front::Number(_, _, size)) => at += size,
            Some(Front::Part(f, from, len)) => {
                let snapshot = snapshot_from(event, at);
                let diff = diff_from(event, at);
                if f == 2 {
                    event = snapshot;
                }
                if f == 3 {
                    event = diff;
                }
                at = at + from + len;
            }
            Some(Front::Fixed(size)) => at += size,
        }
    }
    event
}

// The numbers and the event of the watch update m.
pub fn read_watch_update(m: &[u8]) -> WatchHead
    ensures { WatchIs m.now result }
{
    let watch_id = wire_values::number(m, 1);
    let event = read_event(m);
    let error = error_code(m, 4);
    WatchHead {
        watch_id,
        event,
        error,
    }
}

// The watch update's text, a part of the message.
pub fn watch_text<'m, 's>(message: &'m [u8], store: &'s [u8]) -> &'m [u8]
    ensures { result.now ≡ (watch_update_of message.now).message }
{
    wire_values::text(message, store, 5)
}
