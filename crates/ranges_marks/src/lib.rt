// Values of the key space marked in a row of 1,024 words, a place each, so that a range that shares a value with an earlier one is told at once.
#![tactic(auto)]

ghost use Rattle.std.specs.Prelude.{◌≡◌, ◌+◌, ◌≤◌, ◌<◌, length, take};
ghost use Rattle.ranges_marks.specs.Bits.{ones};
ghost use Rattle.ranges_marks.specs.Marks.{words, row_size, Marking, RowMarking};

use topic_types::KeyRange;

// As many words as the key space needs, 64 values each.
pub const WORDS: usize = 1024;

// As many ranges as one segment of a packed assignment can have buckets.
pub const ROW: usize = 506;

// The word in which count places from low on are set.
fn mask(low: u64, count: u64) -> u64
    requires { (0 < count) × (low + count ≤ 64) }
    ensures { result ≡ ones low count }
{
    (0xffff_ffff_ffff_ffff >> (64 - count)) << low
}

// Marks the values of the range, up to the first word in which one of them is marked already; says whether there is one.
pub fn mark(marks: &mut [u64], range: KeyRange) -> bool
    requires { length marks.old ≡ words }
    ensures { Marking marks.old range result marks.new }
{
    let stop = (range.end as u64) % 65536 + 1;
    let mut at = (range.start as u64) % 65536;
    while at < stop {
        let low = at % 64;
        let count = slice_int::min_u64(64 - low, stop - at);
        let places = mask(low, count);
        let i = (at / 64) as usize;
        let word = marks[i];
        if word & places != 0 {
            return true;
        }
        marks[i] = word | places;
        at += count;
    }
    false
}

// Marks the ranges of the row one after the other, up to the first that has a value that is marked already; says whether there is one.
pub fn mark_row(row: &[KeyRange], marks: &mut [u64]) -> bool
    requires { length marks.old ≡ words }
    ensures { RowMarking marks.old row.now result marks.new }
{
    let mut i: usize = 0;
    while i < row.len() {
        if mark(marks, row[i]) {
            return true;
        }
        i += 1;
    }
    false
}

// The same of the first n ranges of a row by value.
pub fn mark_first(row: [KeyRange; ROW], n: usize, marks: &mut [u64]) -> bool
    requires { (n ≤ row_size) × (length marks.old ≡ words) }
    ensures { RowMarking marks.old (take n row) result marks.new }
{
    mark_row(&row[..n], marks)
}
