// A spacecraft's segment by its name: which segment of a packed assignment takes a key.
#![tactic(auto)]

ghost use Rattle.std.specs.Prelude.{◌≡◌, ◌+◌, ◌*◌, ◌≤◌, length, drop};
ghost use Rattle.packed.specs.Assignment.{assignment_head, bucket_size, decode_ranges, decode_segment, decode_segments, size_segment};
ghost use Rattle.packed.proofs.AssignmentLaws.{Rest};
ghost use Rattle.key_lookup.specs.Lookup.{any_holds, takes, first_taking, segment_for_key};

use refusal::Refusal;
use topic_types::{KeyRange, SegmentId};

// The most bytes of a key.
pub const LONGEST_KEY: usize = 65535;

// One of the n ranges from a place on has the hash: it shares a value with the range of the hash alone.
fn bucket_holds(s: &[u8], at: usize, n: usize, hash: u32) -> bool
    requires { at + bucket_size * n ≤ length s.now }
    ensures { result ≡ any_holds hash (decode_ranges n (drop at s.now)) }
{
    packed::bucket_overlaps(
        s,
        at,
        n,
        KeyRange {
            start: hash,
            end: hash,
        },
    )
}

// The segment whose record stands at the place p takes the hash: its range has it, and a bucket where there are buckets.
fn segment_takes(s: &[u8], p: usize, hash: u32) -> bool
    requires { p + size_segment (decode_segment (drop p s.now)) ≤ length s.now }
    ensures { result ≡ takes hash (decode_segment (drop p s.now)) }
{
    if !ranges_calls::holds_hash(packed::range_at(s, p + packed::RECORD_RANGE), hash) {
        return false;
    }
    let count = slice_int::read_u16(s, p + packed::RECORD_COUNT) as usize;
    count == 0 || bucket_holds(s, p + packed::RECORD_HEAD, count, hash)
}

// The id of the first of the m records from the place 10 on that takes the hash; None where none does.
fn first_taking(s: &[u8], m: usize, hash: u32) -> Result<Option<SegmentId>, Refusal>
    requires { Rest s.now assignment_head m }
    ensures { result ≡ first_taking hash (decode_segments m (drop assignment_head s.now)) }
{
    let mut p: usize = packed::ASSIGNMENT_HEAD;
    for _ in 0..m {
        if segment_takes(s, p, hash) {
            return Ok(Some(SegmentId(packed_records::id_at(s, p))));
        }
        p += packed_records::size_at(s, p);
    }
    Ok(None)
}

// The segment that takes the key: the lowest id whose range has the key's hash and which has no buckets or a bucket that
// has it; None where no segment takes it. A key above LONGEST_KEY is refused first (32), then bytes that are no packed
// assignment (20).
pub fn segment_for_key(key: &[u8], assignment: &[u8]) -> Result<Option<SegmentId>, Refusal>
    ensures { result ≡ segment_for_key key.now assignment.now }
{
    if LONGEST_KEY < key.len() {
        return Err(Refusal::KeyTooLong);
    }
    let (_, count) = packed::read_whole(assignment).ok_or(Refusal::MalformedInput)?;
    first_taking(assignment, count, key_murmur3::hash(key) % 65536)
}
