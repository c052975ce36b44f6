// A packed assignment written as a `ScalableConsumerAssignment` message: `ConsumerAssignment::to_pb`.
//
// Sizes come first: a part's length stands before it, and nothing is written before everything is known to fit. Each segment's buckets are gone over three times in
// all.
#![tactic(auto)]

ghost use Rattle.std.specs.Prelude.{◌≡◌, ◌+◌, ◌*◌, ◌≤◌, ◌<◌, ◌++◌, length, drop};
ghost use Rattle.slice_int.specs.Put.{put};
ghost use Rattle.name_topic.specs.Names.{decimal, segment_topic};
ghost use Rattle.output.specs.Output.{outcome, written};
ghost use Rattle.packed.specs.Assignment.{assignment_head, bucket_size, num, decode_ranges, decode_segment, decode_segments, size_segment};
ghost use Rattle.packed.proofs.AssignmentLaws.{Rest};
ghost use Rattle.wire_writer.specs.Encode.{number_field};
ghost use Rattle.writer_message.specs.Message.{range_message, bucket_fields, segment_message, segment_fields};
ghost use Rattle.intake_content.specs.Content.{first_outside, outside_in, outside_of};
ghost use Rattle.writer.specs.Write.{outside_at, held_of, room_of, write_outcome};

use name_parents::SCHEME;
use refusal::Refusal;
use topic_types::{KeyRange, SegmentId};

// The first of the n buckets from a place on that lies not wholly inside the range: its place among them.
fn bucket_outside(s: &[u8], at: usize, n: usize, range: KeyRange) -> Option<usize>
    requires { at + bucket_size * n ≤ length s.now }
    ensures { result ≡ outside_of (first_outside range 0 (decode_ranges n (drop at s.now))) }
{
    let mut index: usize = 0;
    let mut p = at;
    while index < n {
        let bucket = packed::range_at(s, p);
        if bucket.start < range.start || range.end < bucket.end {
            return Some(index);
        }
        p += packed::BUCKET;
        index += 1;
    }
    None
}

// The same of the segment whose record stands at the place p.
fn segment_outside(s: &[u8], p: usize) -> Option<usize>
    requires { p + size_segment (decode_segment (drop p s.now)) ≤ length s.now }
    ensures { result ≡ outside_at (decode_segment (drop p s.now)) }
{
    let range = packed::range_at(s, p + packed::RECORD_RANGE);
    let count = slice_int::read_u16(s, p + packed::RECORD_COUNT) as usize;
    bucket_outside(s, p + packed::RECORD_HEAD, count, range)
}

// The same of the m segments from a place on, the lowest id first: 34 of the first bucket that lies not inside.
fn segments_outside(s: &[u8], at: usize, m: usize) -> Result<(), Refusal>
    requires { Rest s.now at m }
    ensures { result ≡ held_of (outside_in (decode_segments m (drop at s.now))) }
{
    let mut p = at;
    let mut left = m;
    while 0 < left {
        if let Some(index) = segment_outside(s, p) {
            let segment_id = SegmentId(packed_records::id_at(s, p));
            return Err(Refusal::BucketOutsideSegment { segment_id, index });
        }
        p += packed_records::size_at(s, p);
        left -= 1;
    }
    Ok(())
}

// How many digits v has in decimal.
fn decimal_size(v: u64) -> usize
    ensures { result ≡ length (decimal v) }
{
    let mut n: usize = 1;
    let mut rest = v;
    while 10 <= rest {
        rest /= 10;
        n += 1;
    }
    n
}

// The length of a segment's name below the path: scheme, path, separators, eight hex digits, and the id.
fn topic_size(path: &[u8], range: KeyRange, id: u64) -> usize
    ensures { result ≡ length (segment_topic path.now range (record { 0 = id })) }
{
    21 + path.len() + decimal_size(id)
}

// The length of a range's message.
fn range_size(range: KeyRange) -> usize
    ensures { result ≡ length (range_message range) }
{
    wire_writer::number_size(1, range.start as u64) + wire_writer::number_size(2, range.end as u64)
}

// The length of the fields of the n buckets from a place on.
fn buckets_size(s: &[u8], at: usize, n: usize) -> usize
    requires n_in_bounds { at + bucket_size * n ≤ length s.now }
    requires n_bound { n < 65536 }
    ensures { result ≡ length (bucket_fields (decode_ranges n (drop at s.now))) }
{
    let mut size: usize = 0;
    let mut p = at;
    let mut left = n;
    while 0 < left {
        let len = range_size(packed::range_at(s, p));
        size = size + wire_writer::part_head_size(5, len) + len;
        p += packed::BUCKET;
        left -= 1;
    }
    size
}

// The length of the message of the segment whose record stands at the place p.
fn segment_size(s: &[u8], p: usize, path: &[u8]) -> usize
    requires { p + size_segment (decode_segment (drop p s.now)) ≤ length s.now }
    ensures { result ≡ length (segment_message path.now (decode_segment (drop p s.now))) }
{
    let id = slice_int::read_u64(s, p);
    let range = packed::range_at(s, p + packed::RECORD_RANGE);
    let count = slice_int::read_u16(s, p + packed::RECORD_COUNT) as usize;
    let topic = topic_size(path, range, id);
    let numbers = wire_writer::number_size(1, id)
        + wire_writer::number_size(2, range.start as u64)
        + wire_writer::number_size(3, range.end as u64);
    let buckets = buckets_size(s, p + packed::RECORD_HEAD, count);
    numbers + wire_writer::part_head_size(4, topic) + topic + buckets
}

// How many bytes the fields of the m segments from a place on have; None where they are more than the limit.
fn segments_room(s: &[u8], at: usize, m: usize, path: &[u8], limit: usize) -> Option<usize>
    requires { Rest s.now at m }
    ensures { result ≡ room_of limit path.now (decode_segments m (drop at s.now)) }
{
    let mut size: usize = 0;
    let mut p = at;
    let mut left = m;
    while 0 < left {
        let len = segment_size(s, p, path);
        let more = wire_writer::part_head_size(2, len) + len;
        if limit - size < more {
            return None;
        }
        size += more;
        p += packed_records::size_at(s, p);
        left -= 1;
    }
    Some(size)
}

// Writes the fields of the n buckets from a place on to out, and answers the place behind them.
fn write_buckets(s: &[u8], at: usize, n: usize, out: &mut [u8], to: usize) -> usize
    requires n_in_bounds { at + bucket_size * n ≤ length s.now }
    requires s_in_bounds { to + length (bucket_fields (decode_ranges n (drop at s.now))) ≤ length out.old }
    ensures { (result ≡ to + length (bucket_fields (decode_ranges n (drop at s.now))))
        × (out.new ≡ put out.old to (bucket_fields (decode_ranges n (drop at s.now)))) }
{
    let mut next = to;
    let mut p = at;
    let mut left = n;
    while 0 < left {
        let range = packed::range_at(s, p);
        next = wire_writer::write_part_head(out, next, 5, range_size(range));
        next = wire_writer::write_number(out, next, 1, range.start as u64);
        next = wire_writer::write_number(out, next, 2, range.end as u64);
        p += packed::BUCKET;
        left -= 1;
    }
    next
}

// Writes a segment's name to out, and answers the place behind it.
fn write_topic(path: &[u8], range: KeyRange, id: u64, out: &mut [u8], to: usize) -> usize
    requires { to + length (segment_topic path.now range (record { 0 = id })) ≤ length out.old }
    ensures { (result ≡ to + length (segment_topic path.now range (record { 0 = id })))
        × (out.new ≡ put out.old to (segment_topic path.now range (record { 0 = id }))) }
{
    match name_topic::write_segment_topic(path, range, SegmentId(id), &mut out[to..]) {
        Ok(len) => to + len,
        Err(_) => to,
    }
}

// Writes the message of the segment whose record stands at the place p to out, and answers the place behind it.
fn write_segment(s: &[u8], p: usize, path: &[u8], out: &mut [u8], to: usize) -> usize
    requires s_in_bounds { p + size_segment (decode_segment (drop p s.now)) ≤ length s.now }
    requires s_in_bounds_2 { to + length (segment_message path.now (decode_segment (drop p s.now))) ≤ length out.old }
    ensures { (result ≡ to + length (segment_message path.now (decode_segment (drop p s.now))))
        × (out.new ≡ put out.old to (segment_message path.now (decode_segment (drop p s.now)))) }
{
    let id = slice_int::read_u64(s, p);
    let range = packed::range_at(s, p + packed::RECORD_RANGE);
    let count = slice_int::read_u16(s, p + packed::RECORD_COUNT) as usize;
    let start = wire_writer::write_number(out, to, 1, id);
    let end = wire_writer::write_number(out, start, 2, range.start as u64);
    let head = wire_writer::write_number(out, end, 3, range.end as u64);
    let topic = wire_writer::write_part_head(out, head, 4, topic_size(path, range, id));
    let buckets = write_topic(path, range, id, out, topic);
    write_buckets(s, p + packed::RECORD_HEAD, count, out, buckets)
}

// Writes the fields of the m segments from a place on to out, and answers the place behind them.
fn write_segments(s: &[u8], at: usize, m: usize, path: &[u8], out: &mut [u8], to: usize) -> usize
    requires rest { Rest s.now at m }
    requires s_in_bounds { to + length (segment_fields path.now (decode_segments m (drop at s.now))) ≤ length out.old }
    ensures { (result ≡ to + length (segment_fields path.now (decode_segments m (drop at s.now))))
        × (out.new ≡ put out.old to (segment_fields path.now (decode_segments m (drop at s.now)))) }
{
    let mut next = to;
    let mut p = at;
    let mut left = m;
    while 0 < left {
        let len = segment_size(s, p, path);
        next = wire_writer::write_part_head(out, next, 2, len);
        next = write_segment(s, p, path, out, next);
        p += packed_records::size_at(s, p);
        left -= 1;
    }
    next
}

// Writes the message of the m segments of the packed assignment s, where it fits.
fn write_message(s: &[u8], m: usize, path: &[u8], out: &mut [u8]) -> Result<usize, Refusal>
    requires { Rest s.now assignment_head m }
    ensures { outcome result out.new ≡ written (number_field 1 (num 8 s.now) ++ segment_fields path.now (decode_segments m (drop assignment_head s.now))) out.old }
{
    let epoch = slice_int::read_u64(s, 0);
    let head = wire_writer::number_size(1, epoch);
    if out.len() < head {
        return Err(Refusal::ResultTooLong);
    }
    let size = segments_room(s, packed::ASSIGNMENT_HEAD, m, path, out.len() - head).ok_or(
        Refusal::ResultTooLong,
    )?;
    let next = wire_writer::write_number(out, 0, 1, epoch);
    write_segments(s, packed::ASSIGNMENT_HEAD, m, path, out, next);
    Ok(head + size)
}

// Writes the packed assignment, whose segments lie below the parent, as a message. Tested in order: the lent form (20), each bucket inside its
// segment's range (34), where it has a segment the parent's UTF-8 (7) and form (12), the room (21). A refusal leaves the output as it was.
pub fn to_pb(assignment: &[u8], parent: &[u8], out: &mut [u8]) -> Result<usize, Refusal>
    ensures { outcome result out.new ≡ write_outcome assignment.now parent.now out.old }
{
    let (_, count) = packed::read_whole(assignment).ok_or(Refusal::MalformedInput)?;
    if count == 0 {
        return write_message(assignment, 0, parent, out);
    }
    segments_outside(assignment, packed::ASSIGNMENT_HEAD, count)?;
    if !utf8::is_utf8(parent) {
        return Err(Refusal::InvalidUtf8);
    }
    if !name_topic::is_parent(parent) {
        return Err(Refusal::InvalidParent);
    }
    write_message(assignment, count, &parent[SCHEME..], out)
}
