// A bucket of a segment in a message's usual form: field 5, a part of fields 1 and 2 and nothing else.
//
// A bucket whose numbers have three bytes each is told by one word, any other field by field. What is told is so; nothing is told of a bucket in any other
// form, of one that is reversed, or of one that ends beyond the key space.
#![tactic(auto)]

ghost use Rattle.std.specs.Prelude.{◌<◌};
ghost use Rattle.intake_ordered_bucket.specs.Buckets.{RangeOf, RangeIs, WordIs, WideIs, BucketIs};

// The highest value of the key space, as wide as a number of a message.
pub const MAX_HASH: u64 = topic_types::MAX_HASH as u64;

// The bytes of a bucket's field each number of which has three bytes.
const WIDE: usize = 10;

// The range from a start to an end, where it is not reversed and lies in the key space.
fn range_of(start: u64, end: u64) -> Option<(u64, u64)>
    ensures { RangeOf start end result }
{
    if end < start || MAX_HASH < end {
        return None;
    }
    Some((start, end))
}

// The range that the part is, its start and its end: fields 1 and 2, and nothing else.
fn range_in(q: &[u8]) -> Option<(u64, u64)>
    ensures { RangeIs q.now result }
{
    let (start, second) = wire_ordered::number_at(1, q, 0)?;
    let (end, behind) = wire_ordered::number_at(2, q, second)?;
    if behind != q.len() {
        return None;
    }
    range_of(start, end)
}

// The 8 bytes behind the key and the length of a bucket at a place; 0 where the segment has not as many.
fn bucket_word(p: &[u8], at: usize) -> u64
    ensures { 0 < result → WordIs p.now at result }
{
    if p.len() < WIDE || p.len() - WIDE < at {
        return 0;
    }
    slice_int::read_u64(p, at + 2)
}

// The bucket at a place, each number of which has three bytes: one word tells it.
fn wide_bucket(p: &[u8], at: usize) -> Option<(u64, u64)>
    ensures { WideIs p.now at result }
{
    let w = bucket_word(p, at);
    if w / 72057594037927936 != 8
        || w / 16777216 % 256 != 16
        || w / 36028797018963968 % 2 != 1
        || w / 140737488355328 % 2 != 1
        || w / 549755813888 % 2 != 0
        || w / 8388608 % 2 != 1
        || w / 32768 % 2 != 1
        || w / 128 % 2 != 0
        || p[at] != 42
        || p[at + 1] != 8
    {
        return None;
    }
    let start = w / 281474976710656 % 128
        + w / 1099511627776 % 128 * 128
        + w / 4294967296 % 128 * 16384;
    let end = w / 65536 % 128 + w / 256 % 128 * 128 + w % 128 * 16384;
    range_of(start, end)
}

// The bucket of the segment p at a place: its start and its end, and the place behind its field.
pub fn bucket_at(p: &[u8], at: usize) -> Option<(u64, u64, usize)>
    ensures { BucketIs p.now at result }
{
    if let Some((start, end)) = wide_bucket(p, at) {
        return Some((start, end, at + WIDE));
    }
    let (from, next) = wire_ordered::part_at(5, p, at)?;
    let (start, end) = range_in(&p[from..next])?;
    Some((start, end, next))
}
