// The calls on ranges of the key space: the Rust's `KeyRange` methods, over ranges given by their ends.
//
// Each call tests its ranges first, the first before the second, and refuses one that `KeyRange::new` does not make (9).
#![tactic(auto)]

ghost use Rattle.std.specs.Prelude.{◌≡◌};
ghost use Rattle.topic_types.specs.KeyRanges.{new_key_range};
ghost use Rattle.ranges_calls.specs.Calls.{pair_by, holds, holds_range, touches, length_of, contains_of, contains_range_of, is_adjacent_of};

use refusal::Refusal;
use topic_types::{KeyRange, KeyRangeError};

// How many values the range has, 1 to 65,536.
pub fn len(start: u32, end: u32) -> Result<u32, Refusal>
    ensures { result ≡ length_of start end }
{
    let r = KeyRange::new(start, end)?;
    Ok(r.end - r.start + 1)
}

// The hash lies in the range.
pub fn holds_hash(range: KeyRange, hash: u32) -> bool
    ensures { result ≡ holds hash range }
{
    range.start <= hash && hash <= range.end
}

// The hash lies in the range; any number may be asked for.
pub fn contains(start: u32, end: u32, hash: u32) -> Result<bool, Refusal>
    ensures { result ≡ contains_of start end hash }
{
    let range = KeyRange::new(start, end)?;
    Ok(holds_hash(range, hash))
}

// The two ranges, or the error of the first that is none.
fn both(
    start: u32,
    end: u32,
    other_start: u32,
    other_end: u32,
) -> Result<(KeyRange, KeyRange), KeyRangeError>
    ensures { result ≡ pair_by (new_key_range start end) (new_key_range other_start other_end) }
{
    let a = KeyRange::new(start, end)?;
    let b = KeyRange::new(other_start, other_end)?;
    Ok((a, b))
}

fn holds_range(a: KeyRange, b: KeyRange) -> bool
    ensures { result ≡ holds_range a b }
{
    a.start <= b.start && b.end <= a.end
}

// The first range has every value of the second.
pub fn contains_range(
    start: u32,
    end: u32,
    other_start: u32,
    other_end: u32,
) -> Result<bool, Refusal>
    ensures { result ≡ contains_range_of start end other_start other_end }
{
    let (a, b) = both(start, end, other_start, other_end)?;
    Ok(holds_range(a, b))
}

fn touch(a: KeyRange, b: KeyRange) -> bool
    ensures { result ≡ touches a b }
{
    (a.end as u64) + 1 == (b.start as u64) || (b.end as u64) + 1 == (a.start as u64)
}

// One range ends right before the other starts.
pub fn is_adjacent_to(
    start: u32,
    end: u32,
    other_start: u32,
    other_end: u32,
) -> Result<bool, Refusal>
    ensures { result ≡ is_adjacent_of start end other_start other_end }
{
    let (a, b) = both(start, end, other_start, other_end)?;
    Ok(touch(a, b))
}
