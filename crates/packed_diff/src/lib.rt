// The packed delta from one packed assignment to the next: one merge over both gives the ids that are lost, the same merge with the two changed about gives the records
// that are gained.
#![tactic(auto)]

ghost use Rattle.std.specs.Prelude.{◌≡◌, true, ◌+◌, ◌≤◌, ◌<◌, length, take, drop};
ghost use Rattle.slice_int.specs.Put.{put};
ghost use Rattle.packed.specs.Assignment.{decode_segment, decode_segments, size_segment, decode_assignment, starts_assignment};
ghost use Rattle.packed_delta.specs.Delta.{encode_delta, size_delta};
ghost use Rattle.packed_delta.specs.Change.{delta_between, longest_delta};
ghost use Rattle.packed_diff.specs.Merge.{merge_step, entries, entry_size, MergedIs};

// The most bytes of a delta from one packed assignment to another.
pub const LONGEST: usize = 3210;

// How a record stands to the other assignment's records from a place on.
#[derive(Clone, Copy)]
enum Step {
    // None of them is identical: the record is kept.
    Keep,
    // The first is identical.
    Same,
    // The first is below it, and is passed over.
    Skip,
}

// How many records were kept, and the place behind what was written.
#[derive(Clone, Copy)]
struct Merged {
    count: usize,
    next: usize,
}

// How the record at the place p of x stands to the n records of y from the place q on.
fn next_step(x: &[u8], p: usize, y: &[u8], q: usize, n: usize) -> Step
    requires x_in_bounds { p + size_segment (decode_segment (drop p x.now)) ≤ length x.now }
    requires y_in_bounds { 0 < n → q + size_segment (decode_segment (drop q y.now)) ≤ length y.now }
    ensures { result ≡ merge_step (decode_segment (drop p x.now)) (decode_segments n (drop q y.now)) }
{
    if n == 0 {
        return Step::Keep;
    }
    let own = packed_records::id_at(x, p);
    let other = packed_records::id_at(y, q);
    if other < own {
        return Step::Skip;
    }
    if own < other {
        return Step::Keep;
    }
    if packed_records::same_record(x, p, y, q) {
        return Step::Same;
    }
    Step::Keep
}

// How many bytes of a record are written.
fn entry_size(whole: bool, size: usize) -> usize
    ensures { result ≡ entry_size whole size }
{
    if whole { size } else { packed_delta::ID }
}

// Copies the n bytes of x from the place p on to out from the place at on: eight at a time, and the last eight once more where fewer are left.
fn copy_bytes(x: &[u8], p: usize, n: usize, out: &mut [u8], at: usize)
    requires { (8 ≤ n) × (p + n ≤ length x.now) × (at + n ≤ length out.old) }
    ensures { out.new ≡ put out.old at (take n (drop p x.now)) }
{
    let last = n - 8;
    let mut i: usize = 0;
    while i < last {
        slice_int::write_u64(out, at + i, slice_int::read_u64(x, p + i));
        i += 8;
    }
    slice_int::write_u64(out, at + last, slice_int::read_u64(x, p + last));
}

// Writes the records of x that y has no identical one of, whole or their ids alone, to out from the place at on.
fn merge(x: &[u8], y: &[u8], whole: bool, out: &mut [u8], at: usize) -> Merged
    requires x_value { starts_assignment x.now ≡ true }
    requires y_value { starts_assignment y.now ≡ true }
    requires x_in_bounds { at + length (entries whole (decode_assignment x.now).segments) ≤ length out.old }
    ensures { MergedIs x.now y.now whole out.old at result out.new }
{
    let mut m = slice_int::read_u16(x, packed::ASSIGNMENT_COUNT) as usize;
    let mut n = slice_int::read_u16(y, packed::ASSIGNMENT_COUNT) as usize;
    let mut p: usize = packed::ASSIGNMENT_HEAD;
    let mut q: usize = packed::ASSIGNMENT_HEAD;
    let mut next = at;
    let mut count: usize = 0;
    while 0 < m {
        match next_step(x, p, y, q, n) {
            Step::Skip => {
                q += packed_records::size_at(y, q);
                n -= 1;
            }
            Step::Same => {
                p += packed_records::size_at(x, p);
                m -= 1;
            }
            Step::Keep => {
                let size = packed_records::size_at(x, p);
                let len = entry_size(whole, size);
                copy_bytes(x, p, len, out, next);
                next += len;
                count += 1;
                p += size;
                m -= 1;
            }
        }
    }
    Merged { count, next }
}

// Writes the delta from the packed assignment at the front of old to the one at the front of new, and answers its length.
pub fn write_delta(old: &[u8], new: &[u8], out: &mut [u8]) -> usize
    requires value { starts_assignment old.now ≡ true }
    requires value_2 { starts_assignment new.now ≡ true }
    requires longest_delta_in_bounds { longest_delta ≤ length out.old }
    ensures { (result ≡ size_delta (delta_between (decode_assignment old.now) (decode_assignment new.now)))
        × (out.new ≡ put out.old 0 (encode_delta (delta_between (decode_assignment old.now) (decode_assignment new.now)))) }
{
    let epoch = slice_int::read_u64(new, 0);
    let lost = merge(old, new, false, out, packed_delta::HEAD);
    let gained = merge(new, old, true, out, lost.next);
    slice_int::write_u16(out, packed_delta::GAINED_COUNT, gained.count as u16);
    slice_int::write_u16(out, packed_delta::LOST_COUNT, lost.count as u16);
    slice_int::write_u64(out, 0, epoch);
    gained.next
}
