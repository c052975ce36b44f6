// `KeyRange` calls, and the consumer's kind.
ghost use Rattle.std.specs.Prelude.{◌≡◌};
ghost use Rattle.topic_types.specs.ConsumerTypes.{from_wire, to_wire};
ghost use Rattle.ranges_calls.specs.Calls.{length_of, contains_of, contains_range_of, is_adjacent_of};
ghost use Rattle.export.specs.Exports.{length_reply, answered_reply};

use export_reply::Reply;
use refusal::Refusal;
use topic_types::ScalableConsumerType;

// A test's answer.
pub fn answered_reply(a: Result<bool, Refusal>) -> Reply
    ensures { result ≡ answered_reply a }
{
    match a {
        Ok(b) => export_reply::test(b),
        Err(x) => export_reply::refused(x),
    }
}

// How many values a range has: `KeyRange::len`.
#[unsafe(no_mangle)]
pub extern "C" fn cuddrewyn_range_len(start: u32, end: u32) -> Reply
    ensures { result ≡ length_reply (length_of start end) }
{
    match ranges_calls::len(start, end) {
        Ok(n) => export_reply::one(export_reply::FOUND, n as u64),
        Err(x) => export_reply::refused(x),
    }
}

// Whether a range has a value: `KeyRange::contains`.
#[unsafe(no_mangle)]
pub extern "C" fn cuddrewyn_range_contains(start: u32, end: u32, hash: u32) -> Reply
    ensures { result ≡ answered_reply (contains_of start end hash) }
{
    answered_reply(ranges_calls::contains(start, end, hash))
}

// Whether a range has every value of another: `KeyRange::contains_range`.
#[unsafe(no_mangle)]
pub extern "C" fn cuddrewyn_range_contains_range(
    start: u32,
    end: u32,
    other_start: u32,
    other_end: u32,
) -> Reply
    ensures { result ≡ answered_reply (contains_range_of start end other_start other_end) }
{
    answered_reply(ranges_calls::contains_range(start, end, other_start, other_end))
}

// Whether one range ends right before the other starts: `KeyRange::is_adjacent_to`.
#[unsafe(no_mangle)]
pub extern "C" fn cuddrewyn_range_is_adjacent_to(
    start: u32,
    end: u32,
    other_start: u32,
    other_end: u32,
) -> Reply
    ensures { result ≡ answered_reply (is_adjacent_of start end other_start other_end) }
{
    answered_reply(ranges_calls::is_adjacent_to(start, end, other_start, other_end))
}

// The kind of an integer of the wire, as the integer of a known kind: `ScalableConsumerType::from_pb_i32`, then `to_pb_i32`.
#[unsafe(no_mangle)]
pub extern "C" fn cuddrewyn_consumer_type(value: i32) -> i32
    ensures { result ≡ to_wire (from_wire value) }
{
    let kind = ScalableConsumerType::from_pb_i32(value);
    kind.to_pb_i32()
}
