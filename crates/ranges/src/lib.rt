// Whether two ranges share a value, and whether one lies above those before it: what the tests of a segment's buckets ask of each.
//
// Buckets that rise are told in one pass, by `starts_from` and `above`; those of any other order by their values, which `ranges_marks` marks.
#![tactic(auto)]

ghost use Rattle.std.specs.Prelude.{◌≡◌, ◌+◌};
ghost use Rattle.ranges.specs.Overlap.{overlap, starts_from};

use topic_types::KeyRange;

// The two ranges share a value.
pub fn overlaps(a: KeyRange, b: KeyRange) -> bool
    ensures { result ≡ overlap a b }
{
    a.start <= b.end && b.start <= a.end
}

// The range is not reversed and starts at low or above.
pub fn starts_from(low: u64, range: KeyRange) -> bool
    ensures { result ≡ starts_from low range }
{
    low <= (range.start as u64) && range.start <= range.end
}

// The lowest value above the range.
pub fn above(range: KeyRange) -> u64
    ensures { result ≡ range.end + 1 }
{
    (range.end as u64) + 1
}
