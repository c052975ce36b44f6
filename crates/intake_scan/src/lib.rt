// One walk over a segment's message: its numbers, the place of its topic, and its buckets, which are tested and written as they come.
//
// Testing and writing in the same walk is what makes a long row of buckets cheap. Nothing is written from the first bad bucket on, nor where there is no room.
#![tactic(auto)]

ghost use Rattle.std.specs.Prelude.{◌≡◌, ◌&&◌, ◌+◌, ◌*◌, ◌^◌, ◌≤◌, ◌<◌, length};
ghost use Rattle.slice_int.specs.Put.{put};
ghost use Rattle.packed.specs.Assignment.{bucket_size, encode_range};
ghost use Rattle.wire_readers.specs.Messages.{int_range_of};
ghost use Rattle.wire_readers.specs.Places.{head_of};
ghost use Rattle.intake_content.specs.Content.{bucket_ok, magnitude, bucket_of};
ghost use Rattle.intake_scan.specs.Scan.{no_buckets, room_for, with_bucket, bucket_written, ScanIs};

use topic_types::KeyRange;
use wire_readers::{IntRange, SegmentHead};
use wire_values::Front;

// What is known of the buckets so far.
#[derive(Clone, Copy)]
pub struct BucketRun {
    // None has failed.
    pub valid: bool,
    // How many there are; where one has failed, its place.
    pub count: usize,
    // The last one; where one has failed, that one.
    pub last: IntRange,
    // The lowest value above the last one.
    pub above: u64,
    // Each starts above the one before.
    pub rising: bool,
}

#[derive(Clone, Copy)]
pub struct SegmentScan {
    pub head: SegmentHead,
    pub run: BucketRun,
}

// The bucket range in the part p. One in its usual form, field 1 and then field 2, is told quickly.
pub fn read_bucket(p: &[u8]) -> IntRange
    ensures { result ≡ int_range_of p.now }
{
    if p.len() < 4 || p[0] != 8 {
        return wire_readers::read_range(p);
    }
    let Some((start, m)) = wire::read_short_varint(&p[1..]) else {
        return wire_readers::read_range(p);
    };
    let second = 1 + m;
    if p.len() <= second || p[second] != 16 {
        return wire_readers::read_range(p);
    }
    let third = second + 1;
    let Some((end, n)) = wire::read_short_varint(&p[third..]) else {
        return wire_readers::read_range(p);
    };
    if third + n != p.len() {
        return wire_readers::read_range(p);
    }
    IntRange {
        start: wire_values::int32(start),
        end: wire_values::int32(end),
    }
}

// The range lies in the key space and is not reversed.
fn is_bucket(r: IntRange) -> bool
    ensures { result ≡ bucket_ok r }
{
    if r.start < 0 {
        return false;
    }
    if (topic_types::MAX_HASH as i32) < r.end {
        return false;
    }
    r.start <= r.end
}

// An end of a range as it is held; 0 where it is negative.
fn magnitude_of(v: i32) -> u32
    ensures { result ≡ magnitude v }
{
    if v < 0 { 0 } else { v as u32 }
}

// The range as it is held.
pub fn key_range_of(r: IntRange) -> KeyRange
    ensures { result ≡ bucket_of r }
{
    KeyRange {
        start: magnitude_of(r.start),
        end: magnitude_of(r.end),
    }
}

// Writes a range as in a packed assignment.
fn write_range(b: &mut [u8], at: usize, range: KeyRange)
    requires bucket_size_in_bounds { at + bucket_size ≤ length b.old }
    requires start_bound { (range.start < 65536) × (range.end < 65536) }
    ensures { b.new ≡ put b.old at (encode_range range) }
{
    slice_int::write_u16(b, at, range.start as u16);
    slice_int::write_u16(b, at + packed::RANGE_END, range.end as u16);
}

// Writes a bucket behind the count buckets before it, where there is room for so many from the place at on.
fn write_bucket(b: &mut [u8], at: usize, count: usize, room: usize, range: KeyRange)
    requires room_in_bounds { at + bucket_size * room ≤ length b.old }
    requires start_bound { (range.start < 65536) × (range.end < 65536) }
    ensures { b.new ≡ room_for b.old at count room range }
{
    if count < room {
        write_range(b, at + packed::BUCKET * count, range);
    }
}

// One more bucket; a valid one is written where there is room.
fn next_bucket(run: BucketRun, r: IntRange, b: &mut [u8], at: usize, room: usize) -> BucketRun
    requires room_in_bounds { at + bucket_size * room ≤ length b.old }
    requires count_bound { run.count + 1 < 2 ^ 64 }
    ensures { (result ≡ with_bucket run r) × (b.new ≡ bucket_written run r b.old at room) }
{
    if !run.valid {
        return run;
    }
    if !is_bucket(r) {
        return BucketRun {
            valid: false,
            last: r,
            ..run
        };
    }
    let range = key_range_of(r);
    write_bucket(b, at, run.count, room, range);
    BucketRun {
        valid: true,
        count: run.count + 1,
        last: r,
        above: ranges::above(range),
        rising: run.rising & (run.above <= range.start as u64),
    }
}

// Before the first bucket.
fn no_buckets() -> BucketRun
    ensures { result ≡ no_buckets }
{
    BucketRun {
        valid: true,
        count: 0,
        last: IntRange { start: 0, end: 0 },
        above: 0,
        rising: true,
    }
}

fn segment_scan(numbers: [u64; 4], start: usize, len: usize, run: BucketRun) -> SegmentScan
    ensures { result ≡ record { head = head_of numbers start len; run = run } }
{
    let head = wire_readers::segment_head(numbers, start, len);
    SegmentScan { head, run }
}

// The walk over the segment in the part p, with its buckets written to b from the place at on.
pub fn scan_segment(p: &[u8], b: &mut [u8], at: usize) -> SegmentScan
    requires { at ≤ length b.old }
    ensures { ScanIs p.now at b.old result b.new }
{
    let room = (b.len() - at) / packed::BUCKET;
    let mut numbers = [0u64; 4];
    let mut topic_start: usize = 0;
    let mut topic_len: usize = 0;
    let mut run = no_buckets();
    let mut from: usize = 0;
    while from < p.len() {
        match wire_values::read_front(&p[from..]) {
            None => {
                return segment_scan(numbers, topic_start, topic_len, run);
            }
            Some(Front::Number(f, v, size)) => {
                if f < 4 {
                    numbers[f as usize] = v;
                }
                from += size;
            }
            Some(Front::Part(f, start, len)) => {
                let begin = from + start;
                let end = begin + len;
                if f == 4 {
                    topic_start = begin;
                    topic_len = len;
                }
                if f == 5 {
                    let r = read_bucket(&p[begin..end]);
                    run = next_bucket(run, r, b, at, room);
                }
                from = end;
            }
            Some(Front::Fixed(size)) => {
                from += size;
            }
        }
    }
    segment_scan(numbers, topic_start, topic_len, run)
}
