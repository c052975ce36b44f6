// Charging for held segments: what a holding costs, and the remainder that goes into the segment's next one.
//
// Nothing is reckoned beyond 64 bits: a product or sum that does not fit is refused.
#![tactic(auto)]

ghost use Rattle.std.specs.Prelude.{◌≡◌, true, ◌+◌, ◌*◌, ◌≤◌, ◌<◌, length, drop};
ghost use Rattle.ranges_calls.specs.Calls.{values_in};
ghost use Rattle.packed.specs.Assignment.{bucket_size, decode_ranges, all_in_order};
ghost use Rattle.charge.specs.Charge.{lengths_of, holds_of, product_of, charge_of};

use refusal::Refusal;
use topic_types::KeyRange;

// By what a product of values held, seconds and rate is divided: 65,536 values times 3,600 seconds. A remainder is
// below it.
pub const DIVISOR: u64 = 235929600;

// How many values a range has that is not reversed.
fn range_length(range: KeyRange) -> u64
    requires { range.start ≤ range.end }
    ensures { (result ≡ values_in range) × (result ≤ 4294967296) }
{
    u64::from(range.end - range.start) + 1
}

// How many values the n ranges from a place on have, one after another.
fn lengths(s: &[u8], at: usize, n: usize) -> u64
    requires { (at + bucket_size * n ≤ length s.now) × (n < 65536) × (all_in_order (decode_ranges n (drop at s.now)) ≡ true) }
    ensures { result ≡ lengths_of (decode_ranges n (drop at s.now)) }
{
    let mut sum: u64 = 0;
    for i in 0..n {
        sum += range_length(packed::range_at(s, at + packed::BUCKET * i));
    }
    sum
}

// The values that the one record lent holds: those of its buckets, where it has some, else those of its range. None
// where the bytes are no one record.
fn values_held(segment: &[u8]) -> Option<u64>
    ensures { result ≡ holds_of segment.now }
{
    let end = segment.len();
    let (_, size) = packed::record_at(segment, 0, end)?;
    if size != end {
        return None;
    }
    let count = slice_int::read_u16(segment, packed::RECORD_COUNT) as usize;
    if count == 0 {
        Some(range_length(packed::range_at(segment, packed::RECORD_RANGE)))
    } else {
        Some(lengths(segment, packed::RECORD_HEAD, count))
    }
}

// The product of two numbers, where 64 bits hold it.
fn multiply(a: u64, b: u64) -> Option<u64>
    ensures { result ≡ product_of (a * b) }
{
    a.checked_mul(b)
}

// The product of three numbers: a factor 0 makes it 0, however large the others are.
fn cost(values: u64, seconds: u64, rate: u64) -> Option<u64>
    ensures { result ≡ product_of (values * seconds * rate) }
{
    if rate == 0 {
        return Some(0);
    }
    let n = multiply(values, seconds)?;
    multiply(n, rate)
}

// The charge of one holding of the segment whose record is lent, in millionths of a euro, and the remainder for its next
// one. Seconds, rate and remainder may be any numbers. Bytes that are no one record are refused first (20), then a
// remainder that is not below DIVISOR, and a product that reaches 2^64 with it (36).
pub fn charge(
    segment: &[u8],
    seconds: u64,
    rate: u64,
    remainder: u64,
) -> Result<(u64, u64), Refusal>
    ensures { result ≡ charge_of segment.now seconds rate remainder }
{
    let values = values_held(segment).ok_or(Refusal::MalformedInput)?;
    if DIVISOR <= remainder {
        return Err(Refusal::ChargeTooLarge);
    }
    let n = cost(values, seconds, rate).ok_or(Refusal::ChargeTooLarge)?;
    let sum = n.checked_add(remainder).ok_or(Refusal::ChargeTooLarge)?;
    Ok((sum / DIVISOR, sum % DIVISOR))
}
