// The assignment of a message in its usual form, tested and packed in one walk.
//
// What is taken is what `wire_messages::first_fault` and `intake::take_in` would say of it together. Anything else is left to them: a field out of its order, a key of
// more than one byte, a fault of any kind, an id that comes twice, buckets that share a value or lie outside their segment's range, an assignment that does not fit.
#![tactic(auto)]

ghost use Rattle.std.specs.Prelude.{◌≡◌, true, ◌||◌, ◌++◌, ◌+◌, ◌*◌, ◌≤◌, ◌<◌, length, drop};
ghost use Rattle.slice_int.specs.Be.{bytes_of};
ghost use Rattle.slice_int.specs.Put.{put};
ghost use Rattle.utf8.specs.Table.{is_utf8};
ghost use Rattle.name_parents.specs.Parents.{is_parent};
ghost use Rattle.packed.specs.Assignment.{slot_size, record_head, bucket_size, decode_ranges, ok_buckets};
ghost use Rattle.intake_ordered.specs.Walk.{BucketsAre, HeadIs, SegmentIs, SegmentsAre};
ghost use Rattle.intake_ordered.specs.Taken.{OrderedIs};

use intake_ordered_bucket::MAX_HASH;
use name_parents::SCHEME;
use packed::{BUCKET, RECORD_HEAD};
use topic_types::{KeyRange, SegmentId};

// What stands before a segment's buckets: its id, its range's start and end, and where its topic starts and ends.
#[derive(Clone, Copy)]
struct Head {
    id: u64,
    start: u64,
    end: u64,
    from: usize,
    to: usize,
}

// The buckets of the segment p from the place first on, which lie between the lowest and the highest value of its range, in whatever order, written to b
// from a place on as they come: the place behind them, and whether they rise.
fn take_buckets(
    p: &[u8],
    first: usize,
    lowest: u64,
    highest: u64,
    b: &mut [u8],
    place: usize,
) -> Option<(usize, bool)>
    requires { place ≤ length b.old }
    ensures { BucketsAre p.now first lowest highest b.old place b.new result }
{
    let mut at = first;
    let mut low: u64 = 0;
    let mut to = place;
    let mut rising = true;
    while at < p.len() {
        let (start, end, next) = intake_ordered_bucket::bucket_at(p, at)?;
        if start < lowest || highest < end || b.len() - to < BUCKET {
            return None;
        }
        slice_int::write_u32(b, to, (start * 65536 + end) as u32);
        rising &= low <= start;
        at = next;
        low = end + 1;
        to += BUCKET;
    }
    Some((to, rising))
}

// The n buckets that were written from a place on share no value: told already where they rise.
fn buckets_apart(b: &[u8], place: usize, n: usize, rising: bool) -> bool
    requires { place + bucket_size * n ≤ length b.now }
    ensures { result ≡ (rising || ok_buckets (decode_ranges n (drop place b.now))) }
{
    rising || packed::buckets_ok(b, place, n)
}

// Fields 1 to 4 of the segment p.
fn head_of(p: &[u8]) -> Option<Head>
    ensures { HeadIs p.now result }
{
    let (id, second) = wire_ordered::number_at(1, p, 0)?;
    let (start, third) = wire_ordered::number_at(2, p, second)?;
    let (end, fourth) = wire_ordered::number_at(3, p, third)?;
    let (from, to) = wire_ordered::part_at(4, p, fourth)?;
    if end < start || MAX_HASH < end {
        return None;
    }
    Some(Head {
        id,
        start,
        end,
        from,
        to,
    })
}

// Writes the head of a record: id, range, and count of buckets.
fn write_head(b: &mut [u8], at: usize, id: u64, start: u64, end: u64, count: usize)
    requires record_head_in_bounds { at + record_head ≤ length b.old }
    requires start_bound { (start < 65536) × (end < 65536) × (count < 65536) }
    ensures { b.new ≡ put b.old at (bytes_of 8 id ++ ((bytes_of 2 start ++ bytes_of 2 end) ++ bytes_of 2 count)) }
{
    slice_int::write_u64(b, at, id);
    slice_int::write_u32(b, at + packed::RECORD_RANGE, (start * 65536 + end) as u32);
    slice_int::write_u16(b, at + packed::RECORD_COUNT, count as u16);
}

// The segment in the part p, its record written behind the used bytes: its id, and the place behind its record.
fn take_segment(p: &[u8], parent: &[u8], b: &mut [u8], used: usize) -> Option<(u64, usize)>
    requires parent_value { (is_parent parent.now ≡ true) × (is_utf8 parent.now ≡ true) }
    requires b_len { (length b.old ≡ slot_size) × (used ≤ slot_size) }
    ensures { SegmentIs parent.now p.now b.old used b.new result }
{
    let Head {
        id,
        start,
        end,
        from,
        to,
    } = head_of(p)?;
    let range = KeyRange {
        start: start as u32,
        end: end as u32,
    };
    if !name_topic::is_segment_topic(&p[from..to], &parent[SCHEME..], range, SegmentId(id)) {
        return None;
    }
    if b.len() - used < RECORD_HEAD {
        return None;
    }
    let place = used + RECORD_HEAD;
    let (last, rising) = take_buckets(p, to, start, end, b, place)?;
    let count = (last - place) / BUCKET;
    if !buckets_apart(b, place, count, rising) {
        return None;
    }
    write_head(b, used, id, start, end, count);
    Some((id, last))
}

// The segments of the assignment s from the place first on, in whatever order, their records written from the place 10 on as they come: how many there
// are, the place behind their records, and whether their ids rise.
fn take_segments(
    s: &[u8],
    first: usize,
    parent: &[u8],
    b: &mut [u8],
) -> Option<(usize, usize, bool)>
    requires parent_value { (is_parent parent.now ≡ true) × (is_utf8 parent.now ≡ true) }
    requires b_len { length b.old ≡ slot_size }
    ensures { SegmentsAre parent.now s.now first b.old b.new result }
{
    let mut at = first;
    let mut low: u64 = 0;
    let mut used = packed::ASSIGNMENT_HEAD;
    let mut count: usize = 0;
    let mut rising = true;
    while at < s.len() {
        let (from, next) = wire_ordered::part_at(2, s, at)?;
        let (id, last) = take_segment(&s[from..next], parent, b, used)?;
        // No id is above the highest.
        if id == u64::MAX {
            return None;
        }
        rising &= low <= id;
        at = next;
        low = id + 1;
        used = last;
        count += 1;
    }
    Some((count, used, rising))
}

// The assignment in the part s below a parent, packed at the front of the buffer: its epoch, and the packed assignment's size. What the buffer holds where
// nothing is told is free.
pub fn take_ordered(s: &[u8], parent: &[u8], b: &mut [u8]) -> Option<(u64, usize)>
    requires b_len { length b.old ≡ slot_size }
    requires parent_value { is_utf8 parent.now ≡ true }
    ensures { OrderedIs parent.now s.now b.old result b.new }
{
    if !name_topic::is_parent(parent) {
        return None;
    }
    let (epoch, first) = wire_ordered::number_at(1, s, 0)?;
    let (count, used, rising) = take_segments(s, first, parent, b)?;
    if !packed_sort::order_records(b, count, rising) {
        return None;
    }
    slice_int::write_u16(b, packed::ASSIGNMENT_COUNT, count as u16);
    slice_int::write_u64(b, 0, epoch);
    Some((epoch, used))
}
