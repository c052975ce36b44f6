// Attach logs from customers' uploaders (02 m): whether a log is what a row of deltas asks for.
//
// A delta's ids are all different, so a part of the log that has as many entries as the delta has ids, each id among
// them, is a permutation of them. Nothing is written and no memory is lent. An entry is looked for at its id's own
// place; where the order is another, the ids are taken in rows of 4,096, and each row passes its part of the log once.
#![tactic(auto)]

ghost use Rattle.std.specs.Prelude.{◌≡◌, true, false, ◌+◌, ◌*◌, ◌≤◌, ◌<◌, length, drop};
ghost use Rattle.intake_repeats.specs.Repeats.{rises};
ghost use Rattle.packed.specs.Assignment.{decode_segments, size_segments};
ghost use Rattle.packed_delta.specs.Delta.{delta_head, id_size};
ghost use Rattle.attach_entries.specs.Log.{are_deltas, deltas_of, log_entries, clear_in};
ghost use Rattle.attach_entries.specs.Passes.{Checked};
ghost use Rattle.attach_entries.specs.Follows.{follows};
ghost use Rattle.attach_log.specs.Steps.{ids_in, size_first, size_in, LoadedIs, part_in, delta_in};

use attach_entries::ENTRY;
use refusal::Refusal;

// Ids loaded into a row: how many, and the place behind them.
#[derive(Clone, Copy)]
struct Loaded {
    count: usize,
    next: usize,
}

// The bytes are deltas, one behind another.
fn deltas_ok(s: &[u8]) -> bool
    ensures { result ≡ are_deltas s.now }
{
    let mut p: usize = 0;
    while p < s.len() {
        let Some((_, _, size)) = packed_delta::read_front(&s[p..]) else {
            return false;
        };
        p = p + size;
    }
    true
}

// No filling bit of the n entries from the front on is set.
fn filling_clear(log: &[u8], n: usize) -> bool
    requires { 9 * n ≤ length log.now }
    ensures { result ≡ clear_in n log.now }
{
    let mut p: usize = 0;
    let mut left = n;
    while 0 < left {
        if slice::wide(log[p + 8]) % 128 != 0 {
            return false;
        }
        p = p + ENTRY;
        left = left - 1;
    }
    true
}

// The bytes of the record at a place, or of the id.
fn size_first(s: &[u8], p: usize, attach: bool) -> usize
    requires { p + size_first attach (drop p s.now) ≤ length s.now }
    ensures { result ≡ size_first attach (drop p s.now) }
{
    if attach {
        packed_records::size_at(s, p)
    } else {
        packed_delta::ID
    }
}

// Loads the ids of a part into a row, at most n and as many as it has places.
fn load_row(s: &[u8], at: usize, n: usize, attach: bool, ids: &mut [u64]) -> Loaded
    requires s_in_bounds { at + size_in attach n (drop at s.now) ≤ length s.now }
    requires ids_nonzero { 0 < length ids.old }
    ensures { LoadedIs attach s.now at n result ids.new }
{
    let mut next = at;
    let mut count: usize = 0;
    while count < ids.len() {
        if n <= count {
            return Loaded { count, next };
        }
        ids[count] = slice_int::read_u64(s, next);
        next = next + size_first(s, next, attach);
        count = count + 1;
    }
    Loaded { count, next }
}

// Each of the n ids of a part has its entry among the m from the place q on: row after row.
fn rows_in(s: &[u8], at: usize, n: usize, attach: bool, log: &[u8], q: usize, m: usize) -> bool
    requires s_in_bounds { (at + size_in attach n (drop at s.now) ≤ length s.now) × (rises (ids_in attach n (drop at s.now)) ≡ true) }
    requires m_in_bounds { q + 9 * m ≤ length log.now }
    ensures { result ≡ part_in attach s.now at n log.now q m }
{
    let mut ids = [0u64; attach_rows::ROW];
    let mut p = at;
    let mut left = n;
    while 0 < left {
        let row = load_row(s, p, left, attach, &mut ids);
        let count = row.count;
        if !attach_rows::row_in(log, q, m, attach, &ids[..count]) {
            return false;
        }
        p = row.next;
        left = left - count;
    }
    true
}

// Each of the n ids of a part has its entry among the n from the place q on. It is looked for at the id's own place; from
// the first on that stands elsewhere, the ids are taken row by row.
fn part_in(s: &[u8], at: usize, n: usize, attach: bool, log: &[u8], q: usize) -> bool
    requires s_in_bounds { (at + size_in attach n (drop at s.now) ≤ length s.now) × (rises (ids_in attach n (drop at s.now)) ≡ true) }
    requires n_in_bounds { q + 9 * n ≤ length log.now }
    ensures { result ≡ part_in attach s.now at n log.now q n }
{
    let mut p = at;
    let mut left = n;
    while 0 < left {
        let id = slice_int::read_u64(s, p);
        if !attach_rows::is_entry(log, q + ENTRY * (n - left), attach, id) {
            return rows_in(s, p, left, attach, log, q, n);
        }
        p = p + size_first(s, p, attach);
        left = left - 1;
    }
    true
}

// The delta at the front of s has its entries at the place q of the log.
fn delta_in(s: &[u8], lost: usize, gained: usize, log: &[u8], q: usize) -> bool
    requires s_in_bounds { (delta_head + id_size * lost + size_segments (decode_segments gained (drop (delta_head + id_size * lost) s.now)) ≤ length s.now)
        × (q + 9 * (lost + gained) ≤ length log.now) }
    requires s_value { (rises (ids_in false lost (drop delta_head s.now)) ≡ true)
        × (rises (ids_in true gained (drop (delta_head + id_size * lost) s.now)) ≡ true) }
    ensures { result ≡ delta_in s.now lost gained (drop q log.now) }
{
    part_in(s, packed_delta::HEAD, lost, false, log, q)
        && part_in(
            s,
            packed_delta::HEAD + packed_delta::ID * lost,
            gained,
            true,
            log,
            q + ENTRY * lost,
        )
}

// The log is what the deltas ask for.
fn log_follows(deltas: &[u8], log: &[u8]) -> bool
    requires { are_deltas deltas.now ≡ true }
    ensures { result ≡ follows (deltas_of deltas.now) (log_entries log.now) }
{
    let mut p: usize = 0;
    let mut q: usize = 0;
    let mut left = log.len() / ENTRY;
    while p < deltas.len() {
        let s = &deltas[p..];
        let Some((lost, gained, size)) = packed_delta::read_front(s) else {
            return false;
        };
        if left < lost + gained {
            return false;
        }
        if !delta_in(s, lost, gained, log, q) {
            return false;
        }
        p = p + size;
        q = q + ENTRY * (lost + gained);
        left = left - lost - gained;
    }
    left == 0
}

// Whether the log is, delta after delta, each lost id detached once, then each gained id attached once, and nothing
// more.
pub fn check(deltas: &[u8], log: &[u8]) -> Result<bool, Refusal>
    ensures { Checked deltas.now log.now result }
{
    if !deltas_ok(deltas) {
        return Err(Refusal::MalformedInput);
    }
    if log.len() % ENTRY != 0 {
        return Err(Refusal::InvalidLog);
    }
    if !filling_clear(log, log.len() / ENTRY) {
        return Err(Refusal::InvalidLog);
    }
    Ok(log_follows(deltas, log))
}
