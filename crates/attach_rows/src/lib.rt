// Ids held to the entries of an uploader's log, a row of ids at a time: each entry is looked for in the row by halving,
// and the id that has it is marked. A row so costs one pass over the entries, in whatever order they stand.
#![tactic(auto)]

ghost use Rattle.std.specs.Prelude.{◌≡◌, true, false, map, ℕ, ◌+◌, ◌*◌, ◌≤◌, length, drop, eqb};
ghost use Rattle.intake_repeats.specs.Repeats.{rises};
ghost use Rattle.attach_entries.specs.Log.{entry_of, entries_in};
ghost use Rattle.attach_entries.specs.Follows.{same_entry, has_entry, all_in};
ghost use Rattle.attach_rows.specs.Rows.{entry_for, Lacks, Marks, all_set};

use attach_entries::{ENTRY, Entry};

// 2^63: the first bit of 64.
const TOP: u64 = 9223372036854775808;

// As many ids as a row has at most.
pub const ROW: usize = 4096;

// The entry in the 9 bytes from a place on.
fn entry_at(log: &[u8], at: usize) -> Entry
    requires { at + 9 ≤ length log.now }
    ensures { result ≡ entry_of (drop at log.now) }
{
    let high = slice_int::read_u64(log, at);
    let low = slice::wide(log[at + 8]);
    let id = high % TOP * 2 + low / 128;
    if high < TOP {
        Entry::Detach(id)
    } else {
        Entry::Attach(id)
    }
}

// The entry that attaches an id, or detaches it.
fn entry_for(attach: bool, x: u64) -> Entry
    ensures { result ≡ entry_for attach x }
{
    if attach {
        Entry::Attach(x)
    } else {
        Entry::Detach(x)
    }
}

fn same_entry(x: Entry, y: Entry) -> bool
    ensures { result ≡ same_entry x y }
{
    match x {
        Entry::Detach(i) => match y {
            Entry::Detach(j) => i == j,
            Entry::Attach(_) => false,
        },
        Entry::Attach(i) => match y {
            Entry::Detach(_) => false,
            Entry::Attach(j) => i == j,
        },
    }
}

// The entry at a place attaches the id, or detaches it.
pub fn is_entry(log: &[u8], at: usize, attach: bool, id: u64) -> bool
    requires { at + 9 ≤ length log.now }
    ensures { result ≡ same_entry (entry_of (drop at log.now)) (entry_for attach id) }
{
    same_entry(entry_at(log, at), entry_for(attach, id))
}

// The id x lies between the ends of a rising row: else no id of the row is x.
fn is_within(ids: &[u64], x: u64) -> bool
    requires { rises ids.now ≡ true }
    ensures { result ≡ false → Lacks x ids.now }
{
    let n = ids.len();
    if n == 0 || x < ids[0] {
        return false;
    }
    x <= ids[n - 1]
}

// Marks the id x of a rising row, if it is there.
fn mark_id(ids: &[u64], marks: &mut [bool], x: u64)
    requires { (rises ids.now ≡ true) × (length ids.now ≤ length marks.old) }
    ensures { Marks (λ (i : ℕ). eqb x i) ids.now marks.old marks.new }
{
    if is_within(ids, x) {
        let r = intake_repeats::rank(ids, x);
        if r < ids.len() && ids[r] == x {
            marks[r] = true;
        }
    }
}

// Marks the id of an entry, if it is of the kind that is asked for.
fn mark_entry(ids: &[u64], marks: &mut [bool], attach: bool, entry: Entry)
    requires { (rises ids.now ≡ true) × (length ids.now ≤ length marks.old) }
    ensures { Marks (λ (i : ℕ). same_entry entry (entry_for attach i)) ids.now marks.old marks.new }
{
    match entry {
        Entry::Detach(id) => {
            if !attach {
                mark_id(ids, marks, id);
            }
        }
        Entry::Attach(id) => {
            if attach {
                mark_id(ids, marks, id);
            }
        }
    }
}

// Marks the ids of the n entries from a place on.
fn mark_entries(log: &[u8], at: usize, n: usize, attach: bool, ids: &[u64], marks: &mut [bool])
    requires n_in_bounds { at + 9 * n ≤ length log.now }
    requires ids_value { (rises ids.now ≡ true) × (length ids.now ≤ length marks.old) }
    ensures { Marks (λ (i : ℕ). has_entry (entry_for attach i) (entries_in n (drop at log.now)))
        ids.now marks.old marks.new }
{
    for i in 0..n {
        mark_entry(ids, marks, attach, entry_at(log, at + ENTRY * i));
    }
}

// All marks are set.
fn all_set(marks: &[bool]) -> bool
    ensures { result ≡ all_set marks.now }
{
    marks.iter().all(|set| *set)
}

// Each id of a rising row is attached, or detached, among the n entries from a place on.
pub fn row_in(log: &[u8], at: usize, n: usize, attach: bool, ids: &[u64]) -> bool
    requires n_in_bounds { at + 9 * n ≤ length log.now }
    requires ids_value { (rises ids.now ≡ true) × (length ids.now ≤ 4096) }
    ensures { result ≡ all_in (map (entry_for attach) ids.now) (entries_in n (drop at log.now)) }
{
    let mut marks = [false; ROW];
    mark_entries(log, at, n, attach, ids, &mut marks);
    let count = ids.len();
    all_set(&marks[..count])
}
