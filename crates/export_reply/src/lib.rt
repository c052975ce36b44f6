// Answers in numbers, for callers in C.
#![tactic(auto)]

ghost use Rattle.std.specs.Prelude.{◌≡◌, [], ◌∷◌, pos};
ghost use Rattle.refusal.specs.Refusals.{source_values};
ghost use Rattle.export_reply.specs.Replies.{word_of, reply_with, taken_reply, refused_reply, test_reply};

use refusal::Refusal;
use topic_types::KeyRangeError;

pub const REFUSED: u8 = 0;

pub const ACCEPTED: u8 = 1;

pub const UNCHANGED: u8 = 2;

pub const DELTA: u8 = 3;

pub const REPLAY: u8 = 4;

pub const WRITTEN: u8 = 5;

pub const YES: u8 = 6;

pub const NO: u8 = 7;

pub const FOUND: u8 = 8;

// Which answer it is, the specification's number of a refusal (0: none), and how many values come with it. A value that may be negative is a word in two's
// complement.
#[repr(C)]
#[derive(Clone, Copy)]
pub struct Reply {
    pub answer: u8,
    pub number: u8,
    pub count: u8,
    pub first: u64,
    pub second: u64,
    pub third: u64,
    pub fourth: u64,
}

// An integer as a word of 64 bits, two's complement.
pub fn word(v: i32) -> u64
    ensures { result ≡ word_of v }
{
    i64::from(v).cast_unsigned()
}

// An answer without values.
pub fn plain(answer: u8) -> Reply
    ensures { result ≡ taken_reply answer [] }
{
    values(answer, 0, 0, 0)
}

// An answer with one value.
pub fn one(answer: u8, first: u64) -> Reply
    ensures { result ≡ taken_reply answer (pos first ∷ []) }
{
    values(answer, 1, first, 0)
}

// An answer with two values.
pub fn two(answer: u8, first: u64, second: u64) -> Reply
    ensures { result ≡ taken_reply answer (pos first ∷ pos second ∷ []) }
{
    values(answer, 2, first, second)
}

// Yes or no.
pub fn test(b: bool) -> Reply
    ensures { result ≡ test_reply b }
{
    if b { plain(YES) } else { plain(NO) }
}

// An answer of at most two values that is no refusal.
fn values(answer: u8, count: u8, first: u64, second: u64) -> Reply
    ensures { result ≡ record {
      answer = answer;
      number = 0;
      count = count;
      first = first;
      second = second;
      third = 0;
      fourth = 0;
    } }
{
    Reply {
        answer,
        number: 0,
        count,
        first,
        second,
        third: 0,
        fourth: 0,
    }
}

// A refused range: its kind, then its numbers.
fn range(number: u8, source: KeyRangeError) -> Reply
    ensures { result ≡ reply_with 0 number (source_values source) }
{
    match source {
        KeyRangeError::StartOutOfBounds { start } => more(number, 2, 1, start as u64, 0, 0),
        KeyRangeError::EndOutOfBounds { end } => more(number, 2, 2, end as u64, 0, 0),
        KeyRangeError::Reversed { start, end } => more(number, 3, 3, start as u64, end as u64, 0),
    }
}

// A segment's refused range: the same behind its id.
fn segment_range(number: u8, id: u64, source: KeyRangeError) -> Reply
    ensures { result ≡ reply_with 0 number (pos id ∷ source_values source) }
{
    let r = range(number, source);
    more(number, r.count + 1, id, r.first, r.second, r.third)
}

// A refusal of up to four values.
fn more(number: u8, count: u8, first: u64, second: u64, third: u64, fourth: u64) -> Reply
    ensures { result ≡ record {
      answer = 0;
      number = number;
      count = count;
      first = first;
      second = second;
      third = third;
      fourth = fourth;
    } }
{
    Reply {
        answer: REFUSED,
        number,
        count,
        first,
        second,
        third,
        fourth,
    }
}

// A refusal in numbers.
pub fn refused(x: Refusal) -> Reply
    ensures { result ≡ refused_reply x }
{
    let n = refusal::number(x);
    match x {
        Refusal::InvalidRange { segment_id, source } => segment_range(n, segment_id.0, source),
        Refusal::InvalidKeyRange { source } => range(n, source),
        Refusal::InvalidBucketRange {
            segment_id,
            index,
            start,
            end,
        } => more(n, 4, segment_id.0, index as u64, word(start), word(end)),
        Refusal::OverlappingBucketRanges { segment_id } => more(n, 1, segment_id.0, 0, 0, 0),
        Refusal::AttachmentMismatch { segment_id } => more(n, 1, segment_id.0, 0, 0, 0),
        Refusal::DuplicateSegment { segment_id } => more(n, 1, segment_id.0, 0, 0, 0),
        Refusal::Broker { code } => more(n, 1, word(code), 0, 0, 0),
        Refusal::Empty { request_id } => more(n, 1, request_id, 0, 0, 0),
        Refusal::EmptyUpdate { watch_id } => more(n, 1, watch_id, 0, 0, 0),
        Refusal::SegmentIdMismatch {
            segment_id,
            topic_id,
        } => more(n, 2, segment_id.0, topic_id.0, 0, 0),
        Refusal::IncarnationMismatch { got, expected } => more(n, 2, got.0, expected.0, 0, 0),
        Refusal::ConsumerMismatch { got, expected } => more(n, 2, got, expected, 0, 0),
        Refusal::NonAdvancingIncarnation { got, prev } => more(n, 2, got.0, prev.0, 0, 0),
        Refusal::CrossIncarnationEpochRegression { got, floor } => more(n, 2, got, floor, 0, 0),
        Refusal::StaleEpoch { got, prev } => more(n, 2, got, prev, 0, 0),
        Refusal::PreBaselineBufferFull { max } => more(n, 1, max as u64, 0, 0, 0),
        Refusal::WatchMismatch { got, expected } => more(n, 2, got, expected, 0, 0),
        Refusal::BucketOutsideSegment { segment_id, index } => more(
            n,
            2,
            segment_id.0,
            index as u64,
            0,
            0,
        ),
        _ => more(n, 0, 0, 0, 0, 0),
    }
}
