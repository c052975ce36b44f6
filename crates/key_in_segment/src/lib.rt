// A test key for a segment: the four bytes with the smallest hash that the segment takes.
//
// The smallest is found by the ends of ranges: a segment without buckets takes the start of its range, one with buckets
// the lowest value that a bucket and the range have in common.
#![tactic(auto)]

ghost use Rattle.std.specs.Prelude.{◌≡◌, true, ◌+◌, ◌*◌, ◌≤◌, max, length, drop};
ghost use Rattle.keyed.specs.Keyed.{find};
ghost use Rattle.packed.specs.Assignment.{assignment_head, bucket_size, id_of, decode_ranges, decode_segment, decode_segments, size_segment, ok_segment};
ghost use Rattle.packed.proofs.AssignmentLaws.{Rest};
ghost use Rattle.key_in_segment.specs.Least.{least_taken};
ghost use Rattle.key_in_segment.specs.Ends.{lesser_of, least_common, least_in};
ghost use Rattle.key_in_segment.specs.SegmentKey.{key_at, key_in, key_in_segment};

use key_for_hash::TestKey;
use refusal::Refusal;
use topic_types::{KeyRange, SegmentId};

// The lesser of two values, if there are any; None where there is neither.
fn lesser(a: Option<u32>, b: Option<u32>) -> Option<u32>
    ensures { result ≡ lesser_of a b }
{
    match (a, b) {
        (Some(x), Some(y)) => Some(x.min(y)),
        _ => a.or(b),
    }
}

fn greater(a: u32, b: u32) -> u32
    ensures { result ≡ max a b }
{
    a.max(b)
}

// The least value that lies in both ranges; None where there is none.
fn least_common(a: KeyRange, b: KeyRange) -> Option<u32>
    ensures { result ≡ least_common a b }
{
    let start = greater(a.start, b.start);
    if a.end < start || b.end < start {
        return None;
    }
    Some(start)
}

// The least value of a range that lies in one of the n ranges from a place on.
fn least_in(s: &[u8], at: usize, n: usize, range: KeyRange) -> Option<u32>
    requires { at + bucket_size * n ≤ length s.now }
    ensures { result ≡ least_in range (decode_ranges n (drop at s.now)) }
{
    let mut best = None;
    for i in 0..n {
        let found = least_common(range, packed::range_at(s, at + packed::BUCKET * i));
        best = lesser(best, found);
    }
    best
}

// The least hash that the segment takes whose record stands at the place p.
fn least_at(s: &[u8], p: usize) -> Option<u32>
    requires s_in_bounds { p + size_segment (decode_segment (drop p s.now)) ≤ length s.now }
    requires s_value { ok_segment (decode_segment (drop p s.now)) ≡ true }
    ensures { result ≡ least_taken (decode_segment (drop p s.now)) }
{
    let range = packed::range_at(s, p + packed::RECORD_RANGE);
    let count = slice_int::read_u16(s, p + packed::RECORD_COUNT) as usize;
    if count == 0 {
        return Some(range.start);
    }
    least_in(s, p + packed::RECORD_HEAD, count, range)
}

// The key of a hash, if there is one.
fn key_at(least: Option<u32>) -> Result<Option<TestKey>, Refusal>
    ensures { result ≡ key_at least }
{
    match least {
        Some(hash) => Ok(Some(key_for_hash::key_for_hash(hash))),
        None => Ok(None),
    }
}

// The key of the segment with the id among the m records from the place 10 on.
fn key_among(s: &[u8], m: usize, id: u64) -> Result<Option<TestKey>, Refusal>
    requires { Rest s.now assignment_head m }
    ensures { result ≡ key_in (find id_of id (decode_segments m (drop assignment_head s.now))) }
{
    let mut p: usize = packed::ASSIGNMENT_HEAD;
    for _ in 0..m {
        if id == packed_records::id_at(s, p) {
            return key_at(least_at(s, p));
        }
        p += packed_records::size_at(s, p);
    }
    Ok(None)
}

// The key whose hash is the smallest that the segment with the id takes, its upper 16 bits 0; None where the id is not in
// the list, or the segment has buckets and none meets its range. Bytes that are no packed assignment are refused (20).
pub fn key_in_segment(assignment: &[u8], id: SegmentId) -> Result<Option<TestKey>, Refusal>
    ensures { result ≡ key_in_segment assignment.now id.0 }
{
    let (_, count) = packed::read_whole(assignment).ok_or(Refusal::MalformedInput)?;
    key_among(assignment, count, id.0)
}
