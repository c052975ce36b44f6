// Tests over all bucket ranges of a segment: whether two share a value, "handed to this test as a row of ranges, more than 506 of them row
// against row", and which lies outside the segment's range first.
//
// Only buckets that do not rise are tested row against row: they are read from the message row by row, and each row is lent to the
// test, which marks its values. So any number of ranges takes one row and the marks, and each range is read once.
#![tactic(auto)]

ghost use Rattle.std.specs.Prelude.{◌≡◌};
ghost use Rattle.ranges.specs.Overlap.{any_overlap};
ghost use Rattle.ranges_marks.specs.Marks.{AllValid};
ghost use Rattle.intake_content.specs.Content.{first_outside, outside_of};
ghost use Rattle.intake_buckets.specs.Rows.{buckets_from, LoadedIs};

use ranges_marks::ROW;
use topic_types::KeyRange;

// As many ranges as a segment of a packed assignment can have, the place in the segment's bytes behind them.
#[derive(Clone, Copy)]
pub struct Loaded {
    pub row: [KeyRange; ROW],
    pub count: usize,
    pub next: usize,
}

// The next ranges of the segment p from a place on.
fn load_row(p: &[u8], at: usize) -> Loaded
    ensures { LoadedIs p.now at result }
{
    let mut row = [KeyRange { start: 0, end: 0 }; ROW];
    let mut count: usize = 0;
    let mut next = at;
    while count < ROW {
        let Some((start, len, after)) = wire_values::next_part(p, next, 5) else {
            return Loaded { row, count, next };
        };
        let r = intake_scan::read_bucket(&p[start..start + len]);
        row[count] = intake_scan::key_range_of(r);
        count += 1;
        next = after;
    }
    Loaded { row, count, next }
}

// Two bucket ranges of the segment p share a value. Each row is marked in its turn, and so tested against all rows before it.
pub fn buckets_overlap(p: &[u8]) -> bool
    requires { AllValid (buckets_from p.now 0) }
    ensures { result ≡ any_overlap (buckets_from p.now 0) }
{
    let mut words = [0u64; ranges_marks::WORDS];
    let mut at: usize = 0;
    loop {
        let loaded = load_row(p, at);
        if ranges_marks::mark_first(loaded.row, loaded.count, &mut words) {
            return true;
        }
        if loaded.count < ROW {
            return false;
        }
        at = loaded.next;
    }
}

// The first bucket of the segment p that lies not wholly inside the range: its place among the segment's buckets.
pub fn first_outside(p: &[u8], range: KeyRange) -> Option<usize>
    ensures { result ≡ outside_of (first_outside range 0 (buckets_from p.now 0)) }
{
    let mut index: usize = 0;
    let mut at: usize = 0;
    loop {
        let (start, len, after) = wire_values::next_part(p, at, 5)?;
        let r = intake_scan::read_bucket(&p[start..start + len]);
        let bucket = intake_scan::key_range_of(r);
        if bucket.start < range.start || range.end < bucket.end {
            return Some(index);
        }
        index += 1;
        at = after;
    }
}
