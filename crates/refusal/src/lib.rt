// Why a call is refused: one enum for every call.
//
// The variants that come from the Rust have its names and those of its fields that are numbers; texts are left out. The others are refusals of
// this port's own and have no fields, but for 34. The number before each variant is the one that the specification gives it, and from 64 on the
// project's own; `number_of` and `values_of` of specs/ say the same formally, and every promise about a refusal goes through those two. No variant
// has 5, which request b of document 02 retired.
#![tactic(auto)]

ghost use Rattle.std.specs.Prelude.{◌≡◌};
ghost use Rattle.refusal.specs.Refusals.{number_of};
ghost use Rattle.refusal.specs.declared.Refusal.TheVariants.{InvalidKeyRange};

use topic_types::{ControllerIncarnation, KeyRangeError, SegmentId};

#[derive(Clone, Copy)]
pub enum Refusal {
    // 1: the store has fewer than three slots.
    StoreTooShort,
    // 2: the output of an update or a drain cannot hold every delta.
    OutputTooShort,
    // 3: the message is no row of Protocol Buffers fields.
    InvalidWireFormat,
    // 4: a known field has another wire type than its own.
    WrongWireType,
    // 6: a required field is missing.
    MissingField,
    // 7: a text is not UTF-8.
    InvalidUtf8,
    // 8: the three texts of an identity do not fit its slot.
    IdentityTooLong,
    // 9, of a segment in a message: its range is none.
    InvalidRange {
        segment_id: SegmentId,
        source: KeyRangeError,
    },
    // 9, of a range outside a message: in a name, or lent to a call.
    InvalidKeyRange {
        source: KeyRangeError,
    },
    // 10: a bucket range is none; its place among the segment's buckets, and its ends as they came.
    InvalidBucketRange {
        segment_id: SegmentId,
        index: usize,
        start: i32,
        end: i32,
    },
    // 11: two bucket ranges of a segment share a value.
    OverlappingBucketRanges {
        segment_id: SegmentId,
    },
    // 12: the parent is no `topic://` with tenant, namespace and rest, or has `?` or `#` in one of them.
    InvalidParent,
    // 13: the segment's topic is not the name of its parent, range and id.
    AttachmentMismatch {
        segment_id: SegmentId,
    },
    // 14: the segment's id came before.
    DuplicateSegment {
        segment_id: SegmentId,
    },
    // 15: the packed assignment is longer than a slot.
    AssignmentTooLong,
    // 16: the broker answered with an error code. Its text is handed back beside the refusal.
    Broker {
        code: i32,
    },
    // 17, of a response: neither an assignment nor an error code.
    Empty {
        request_id: u64,
    },
    // 17, of a watch update: neither an event nor an error code.
    EmptyUpdate {
        watch_id: u64,
    },
    // 18: the text is no name of a segment.
    InvalidSegment,
    // 19: the name is another segment's.
    SegmentIdMismatch {
        segment_id: SegmentId,
        topic_id: SegmentId,
    },
    // 20: an assignment, a delta or a segment's record that was lent is malformed.
    MalformedInput,
    // 21: the result does not fit the output, or has no packed form.
    ResultTooLong,
    // 22: a slot or a queued list in use is malformed, or a count of the record is beyond what it counts.
    MalformedStore,
    // 23: the call is for another link to the controller.
    IncarnationMismatch {
        got: ControllerIncarnation,
        expected: ControllerIncarnation,
    },
    // 24: the update is for another consumer.
    ConsumerMismatch {
        got: u64,
        expected: u64,
    },
    // 25: the new link's number is not above the old one's.
    NonAdvancingIncarnation {
        got: ControllerIncarnation,
        prev: ControllerIncarnation,
    },
    // 26: the epoch lies below the highest one that was accepted.
    CrossIncarnationEpochRegression {
        got: u64,
        floor: u64,
    },
    // 27: the epoch lies below that of the list before it.
    StaleEpoch {
        got: u64,
        prev: u64,
    },
    // 28: the queue is full, or the push does not fit the store's free end.
    PreBaselineBufferFull {
        max: usize,
    },
    // 29: the update is for another watch.
    WatchMismatch {
        got: u64,
        expected: u64,
    },
    // 30: the topic set that was lent is malformed.
    MalformedSet,
    // 31: the new topic set is longer than its buffer, or one of the event's topics longer than a topic can be.
    SetTooLong,
    // 32: a key is longer than 65,535 bytes.
    KeyTooLong,
    // 33: a reader's number is above 7.
    UnknownReader,
    // 34: a bucket range lies not wholly inside its segment's range; its place among the segment's buckets.
    BucketOutsideSegment {
        segment_id: SegmentId,
        index: usize,
    },
    // 35: a contract has an end not after its start, a window beyond the week or a count too large.
    InvalidContract,
    // 36: the holding's product and remainder reach 2^64 together, or the remainder lent in is not below the divisor.
    ChargeTooLarge,
    // 37: the log's length is no multiple of 9, or one of its filling bits is set.
    InvalidLog,
    // 38: a lost count is above 65,535, or the window's own numbers point beyond its 256 places.
    InvalidWindow,
    // 64: a saved session has not the form, the length or the checksum of one.
    MalformedSave,
}

// Two numbers that are no range: `?` after `KeyRange::new` refuses with 9.
impl From<KeyRangeError> for Refusal {
    ghost from_gives = { λ source refusal. refusal ≡ InvalidKeyRange source };

    fn from(source: KeyRangeError) -> Refusal {
        Refusal::InvalidKeyRange { source }
    }
}

// The specification's number of a refusal.
pub fn number(refusal: Refusal) -> u8
    ensures { result ≡ number_of refusal }
{
    match refusal {
        Refusal::StoreTooShort => 1,
        Refusal::OutputTooShort => 2,
        Refusal::InvalidWireFormat => 3,
        Refusal::WrongWireType => 4,
        Refusal::MissingField => 6,
        Refusal::InvalidUtf8 => 7,
        Refusal::IdentityTooLong => 8,
        Refusal::InvalidRange {
            segment_id: _,
            source: _,
        } => 9,
        Refusal::InvalidKeyRange { source: _ } => 9,
        Refusal::InvalidBucketRange {
            segment_id: _,
            index: _,
            start: _,
            end: _,
        } => 10,
        Refusal::OverlappingBucketRanges { segment_id: _ } => 11,
        Refusal::InvalidParent => 12,
        Refusal::AttachmentMismatch { segment_id: _ } => 13,
        Refusal::DuplicateSegment { segment_id: _ } => 14,
        Refusal::AssignmentTooLong => 15,
        Refusal::Broker { code: _ } => 16,
        Refusal::Empty { request_id: _ } => 17,
        Refusal::EmptyUpdate { watch_id: _ } => 17,
        Refusal::InvalidSegment => 18,
        Refusal::SegmentIdMismatch {
            segment_id: _,
            topic_id: _,
        } => 19,
        Refusal::MalformedInput => 20,
        Refusal::ResultTooLong => 21,
        Refusal::MalformedStore => 22,
        Refusal::IncarnationMismatch {
            got: _,
            expected: _,
        } => 23,
        Refusal::ConsumerMismatch {
            got: _,
            expected: _,
        } => 24,
        Refusal::NonAdvancingIncarnation { got: _, prev: _ } => 25,
        Refusal::CrossIncarnationEpochRegression { got: _, floor: _ } => 26,
        Refusal::StaleEpoch { got: _, prev: _ } => 27,
        Refusal::PreBaselineBufferFull { max: _ } => 28,
        Refusal::WatchMismatch {
            got: _,
            expected: _,
        } => 29,
        Refusal::MalformedSet => 30,
        Refusal::SetTooLong => 31,
        Refusal::KeyTooLong => 32,
        Refusal::UnknownReader => 33,
        Refusal::BucketOutsideSegment {
            segment_id: _,
            index: _,
        } => 34,
        Refusal::InvalidContract => 35,
        Refusal::ChargeTooLarge => 36,
        Refusal::InvalidLog => 37,
        Refusal::InvalidWindow => 38,
        Refusal::MalformedSave => 64,
    }
}
