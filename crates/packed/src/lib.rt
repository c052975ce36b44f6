// Packed assignments read where they lie: 01's sheets.
//
// `read_front` tests the one at the front of a slot, `read_whole` one that is lent alone. Both are linear. Buckets that rise are told in one pass; others are
// compared pairwise where they are few, and marked where they are many.
#![tactic(auto)]

ghost use Rattle.std.specs.Prelude.{◌≡◌, ◌+◌, ◌*◌, ◌%◌, ◌≤◌, ◌<◌, true, not, ◌&&◌, length, drop};
ghost use Rattle.topic_types.specs.KeyRanges.{key_range};
ghost use Rattle.ranges.specs.Overlap.{overlaps_any, rising_from};
ghost use Rattle.packed.specs.Assignment.{record_head, bucket_size, decode_range, decode_ranges, ok_buckets, starts_assignment, is_assignment};
ghost use Rattle.packed.specs.Answers.{record_read, records_end, front_size, front_answer, whole_read};
ghost use Rattle.packed.specs.Words.{tops_of, WordRises};

use topic_types::KeyRange;

// The most bytes of a packed assignment: a slot.
pub const SLOT: usize = 2048;

// Bytes before the records of a packed assignment; of a record before its buckets; of a bucket.
pub const ASSIGNMENT_HEAD: usize = 10;

pub const RECORD_HEAD: usize = 14;

pub const BUCKET: usize = 4;

// Places: of the number of segments in an assignment; of the range, its end and the number of buckets in a record; of the end in a range.
pub const ASSIGNMENT_COUNT: usize = 8;

pub const RECORD_RANGE: usize = 8;

pub const RECORD_END: usize = 10;

pub const RECORD_COUNT: usize = 12;

pub const RANGE_END: usize = 2;

// Fewer buckets than these are compared pairwise: that is cheaper than to clear the marks.
const MANY: usize = 32;

// A word with the places 56 and 24 set, and the same less 1 at the places 32 and 0.
const PLACES: u64 = 72057594054705152;

const LESS: u64 = 72057589759737855;

// The range in the 4 bytes from a place on.
pub fn range_at(s: &[u8], at: usize) -> KeyRange
    requires { at + bucket_size ≤ length s.now }
    ensures { result ≡ decode_range (drop at s.now) }
{
    let start = slice_int::read_u16(s, at) as u32;
    let end = slice_int::read_u16(s, at + RANGE_END) as u32;
    KeyRange { start, end }
}

// The n ranges from a place on rise, and start at a value or above.
fn buckets_rise(s: &[u8], at: usize, n: usize, from: u64) -> bool
    requires { at + bucket_size * n ≤ length s.now }
    ensures { result ≡ rising_from from (decode_ranges n (drop at s.now)) }
{
    let mut low = from;
    let mut p = at;
    let mut left = n;
    while 0 < left {
        let range = range_at(s, p);
        if !ranges::starts_from(low, range) {
            return false;
        }
        low = ranges::above(range);
        p += BUCKET;
        left -= 1;
    }
    true
}

// The lowest values above the two ranges of a word, at its places 32 and 0.
fn tops(x: u64) -> u64
    ensures { result ≡ tops_of x }
{
    x / 4294967296 % 65536 * 4294967296 + x % 65536 + 4294967297
}

// Whether the two ranges of a word rise from the value at the place 0 of low: the places 56 and 24 say it, of each range by itself.
fn word_rises(x: u64, low: u64) -> u64
    requires { low % 4294967296 ≤ 65536 }
    ensures { WordRises x (low % 4294967296) result }
{
    let starts = x / 281474976710656 * 4294967296 + x / 65536 % 65536;
    let ends = tops(x);
    let lows = low % 4294967296 * 4294967296 + ends / 4294967296;
    (ends + LESS - starts) & (starts + PLACES - lows)
}

// The n ranges from a place on rise: told of four at a time, and of the last by `buckets_rise`. A word is read a turn before it is used, so that the
// compiler makes one read of it.
fn rise_by_words(s: &[u8], at: usize, n: usize) -> bool
    requires { at + bucket_size * n ≤ length s.now }
    ensures { result ≡ rising_from 0 (decode_ranges n (drop at s.now)) }
{
    if n < 8 {
        return buckets_rise(s, at, n, 0);
    }
    let mut x = slice_int::read_u64(s, at);
    let mut y = slice_int::read_u64(s, at + 8);
    let mut low: u64 = 0;
    let mut p = at;
    let mut left = n;
    while 7 < left {
        let word = PLACES & word_rises(x, low) & word_rises(y, tops(x));
        if word != PLACES {
            return false;
        }
        low = tops(y);
        p += 16;
        left -= 4;
        x = slice_int::read_u64(s, p);
        y = slice_int::read_u64(s, p + 8);
    }
    buckets_rise(s, p, left, low % 4294967296)
}

// One of the n ranges from a place on shares a value with the range.
pub fn bucket_overlaps(s: &[u8], at: usize, n: usize, range: KeyRange) -> bool
    requires { at + bucket_size * n ≤ length s.now }
    ensures { result ≡ overlaps_any range (decode_ranges n (drop at s.now)) }
{
    let mut p = at;
    let mut left = n;
    while 0 < left {
        if ranges::overlaps(range_at(s, p), range) {
            return true;
        }
        p += BUCKET;
        left -= 1;
    }
    false
}

// No range of the n from a place on is reversed, and no two share a value: every pair of a few is compared.
fn buckets_apart(s: &[u8], at: usize, n: usize) -> bool
    requires { at + bucket_size * n ≤ length s.now }
    ensures { result ≡ ok_buckets (decode_ranges n (drop at s.now)) }
{
    let mut p = at;
    let mut left = n;
    while 0 < left {
        let range = range_at(s, p);
        if range.end < range.start {
            return false;
        }
        p += BUCKET;
        left -= 1;
        if bucket_overlaps(s, p, left, range) {
            return false;
        }
    }
    true
}

// The same of many: each is marked, and so tested against all before it.
fn buckets_marked(s: &[u8], at: usize, n: usize) -> bool
    requires { at + bucket_size * n ≤ length s.now }
    ensures { result ≡ ok_buckets (decode_ranges n (drop at s.now)) }
{
    let mut words = [0u64; ranges_marks::WORDS];
    let mut p = at;
    let mut left = n;
    while 0 < left {
        let first = slice_int::read_u16(s, p);
        let last = slice_int::read_u16(s, p + RANGE_END);
        if last < first {
            return false;
        }
        let start = first as u32;
        let end = last as u32;
        let range = KeyRange { start, end };
        if ranges_marks::mark(&mut words, range) {
            return false;
        }
        p += BUCKET;
        left -= 1;
    }
    true
}

// The n ranges from a place on may be a segment's buckets.
pub fn buckets_ok(s: &[u8], at: usize, n: usize) -> bool
    requires { at + bucket_size * n ≤ length s.now }
    ensures { result ≡ ok_buckets (decode_ranges n (drop at s.now)) }
{
    if rise_by_words(s, at, n) {
        return true;
    }
    if n < MANY {
        return buckets_apart(s, at, n);
    }
    buckets_marked(s, at, n)
}

// The id and the size in bytes of the record at the place at, which has to end by the place end; None where it is malformed.
pub fn record_at(s: &[u8], at: usize, end: usize) -> Option<(u64, usize)>
    requires { (at ≤ end) × (end ≤ length s.now) }
    ensures { result ≡ record_read s.now at end }
{
    if end - at < RECORD_HEAD {
        return None;
    }
    let id = slice_int::read_u64(s, at);
    let range = range_at(s, at + RECORD_RANGE);
    let count = slice_int::read_u16(s, at + RECORD_COUNT) as usize;
    if (end - at - RECORD_HEAD) / BUCKET < count {
        return None;
    }
    if range.end < range.start {
        return None;
    }
    buckets_ok(s, at + RECORD_HEAD, count).then_some((id, RECORD_HEAD + BUCKET * count))
}

// The place behind the n records from a place on, which have to end by the place end; 0 where they are not valid. `stop` is where they end if no further one has
// buckets: one comparison tells both that none is left and that the next one has room.
fn records_end(s: &[u8], at: usize, n: usize, end: usize) -> usize
    requires { (0 < n) × (at + record_head * n ≤ end) × (end ≤ length s.now) }
    ensures { result ≡ records_end s.now at n end }
{
    let mut p = at;
    let mut stop = at + RECORD_HEAD * n;
    let mut id = slice_int::read_u64(s, at);
    loop {
        if slice_int::read_u16(s, p + RECORD_END) < slice_int::read_u16(s, p + RECORD_RANGE) {
            return 0;
        }
        let count = slice_int::read_u16(s, p + RECORD_COUNT) as usize;
        p += RECORD_HEAD;
        if count != 0 {
            stop += BUCKET * count;
            if end < stop {
                return 0;
            }
            if !buckets_ok(s, p, count) {
                return 0;
            }
            p += BUCKET * count;
        }
        if p == stop {
            return p;
        }
        let next = slice_int::read_u64(s, p);
        if next <= id {
            return 0;
        }
        id = next;
    }
}

// The size of the packed assignment at the front of a slot, 0 where there is none; what follows it is not looked at.
pub fn front_size(s: &[u8]) -> usize
    ensures { result ≡ front_size s.now }
{
    let end = s.len().min(SLOT);
    if end < ASSIGNMENT_HEAD {
        return 0;
    }
    let count = slice_int::read_u16(s, ASSIGNMENT_COUNT) as usize;
    if end < ASSIGNMENT_HEAD + RECORD_HEAD * count {
        return 0;
    }
    if count == 0 {
        return ASSIGNMENT_HEAD;
    }
    records_end(s, ASSIGNMENT_HEAD, count, end)
}

// A packed assignment is at the front of the bytes.
pub fn is_front(s: &[u8]) -> bool
    ensures { result ≡ starts_assignment s.now }
{
    front_size(s) != 0
}

// The bytes are a packed assignment of records without buckets, one at least. Of any other this tells nothing.
fn all_bare(s: &[u8]) -> bool
    ensures { result ≡ true → is_assignment s.now ≡ true }
{
    let end = s.len();
    if end <= ASSIGNMENT_HEAD {
        return false;
    }
    if SLOT < end {
        return false;
    }
    let count = slice_int::read_u16(s, ASSIGNMENT_COUNT) as usize;
    if ASSIGNMENT_HEAD + RECORD_HEAD * count != end {
        return false;
    }
    let mut p: usize = ASSIGNMENT_HEAD;
    let mut prev = slice_int::read_u64(s, p);
    loop {
        if slice_int::read_u16(s, p + RECORD_END) < slice_int::read_u16(s, p + RECORD_RANGE) {
            return false;
        }
        if slice_int::read_u16(s, p + RECORD_COUNT) != 0 {
            return false;
        }
        p += RECORD_HEAD;
        if p == end {
            return true;
        }
        let next = slice_int::read_u64(s, p);
        if next <= prev {
            return false;
        }
        prev = next;
    }
}

// The bytes are a packed assignment; none may be left over.
pub fn is_whole(s: &[u8]) -> bool
    ensures { result ≡ is_assignment s.now }
{
    if all_bare(s) {
        return true;
    }
    let size = front_size(s);
    size != 0 && size == s.len()
}

// The size in bytes of the packed assignment at the front of a slot, and how many segments it has; None where the bytes are malformed.
pub fn read_front(s: &[u8]) -> Option<(usize, usize)>
    ensures { result ≡ front_answer s.now }
{
    let size = front_size(s);
    if size == 0 {
        return None;
    }
    let segments = slice_int::read_u16(s, ASSIGNMENT_COUNT) as usize;
    Some((size, segments))
}

// The same of the packed assignment that the bytes are; none may be left over.
pub fn read_whole(s: &[u8]) -> Option<(usize, usize)>
    ensures { result ≡ whole_read s.now }
{
    let (size, segments) = read_front(s)?;
    (size == s.len()).then_some((size, segments))
}
