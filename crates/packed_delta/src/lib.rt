// Packed deltas read where they lie.
//
// `read_front` reads the one at the front of bytes, `read_delta` one that is lent alone. What changed, apply and join are
// defined in specs/; the programs are those of `packed_diff`, `packed_apply` and `packed_join`.
#![tactic(auto)]

ghost use Rattle.std.specs.Prelude.{◌≡◌, ◌+◌, ◌*◌, ◌≤◌, length, drop};
ghost use Rattle.packed_delta.specs.Delta.{id_size, decode_ids, ids_from};
ghost use Rattle.packed_delta.specs.Answers.{records_to, front_answer, delta_read};

// The bytes before the lost ids of a delta: epoch and counts; of a lost id.
pub const HEAD: usize = 12;

pub const ID: usize = 8;

// Places of a delta's counts.
pub const LOST_COUNT: usize = 8;

pub const GAINED_COUNT: usize = 10;

// The n ids from a place on rise.
fn ids_rise(s: &[u8], at: usize, n: usize) -> bool
    requires { at + id_size * n ≤ length s.now }
    ensures { result ≡ ids_from 0 (decode_ids n (drop at s.now)) }
{
    let mut first = true;
    let mut prev: u64 = 0;
    let mut p = at;
    let mut left = n;
    while 0 < left {
        let next = slice_int::read_u64(s, p);
        if !first && next <= prev {
            return false;
        }
        first = false;
        prev = next;
        p += ID;
        left -= 1;
    }
    true
}

// The place behind the n records from a place on, which are valid and whose ids rise; None where they are malformed.
fn records_to(s: &[u8], at: usize, n: usize) -> Option<usize>
    requires { at ≤ length s.now }
    ensures { result ≡ records_to s.now at n }
{
    let end = s.len();
    let mut first = true;
    let mut prev: u64 = 0;
    let mut p = at;
    let mut left = n;
    while 0 < left {
        let (id, size) = packed::record_at(s, p, end)?;
        if !first && id <= prev {
            return None;
        }
        first = false;
        prev = id;
        p += size;
        left -= 1;
    }
    Some(p)
}

// How many ids the delta at the front loses, how many records it gains, and its size in bytes; None where it is malformed. What follows it is not looked at.
pub fn read_front(s: &[u8]) -> Option<(usize, usize, usize)>
    ensures { result ≡ front_answer s.now }
{
    if s.len() < HEAD {
        return None;
    }
    let lost = slice_int::read_u16(s, LOST_COUNT) as usize;
    let gained = slice_int::read_u16(s, GAINED_COUNT) as usize;
    if (s.len() - HEAD) / ID < lost {
        return None;
    }
    if !ids_rise(s, HEAD, lost) {
        return None;
    }
    let size = records_to(s, HEAD + ID * lost, gained)?;
    Some((lost, gained, size))
}

// How many ids the delta that the bytes are loses, and how many records it gains; None where it is malformed. It may not end early or late.
pub fn read_delta(s: &[u8]) -> Option<(usize, usize)>
    ensures { result ≡ delta_read s.now }
{
    let (lost, gained, size) = read_front(s)?;
    (size == s.len()).then_some((lost, gained))
}
