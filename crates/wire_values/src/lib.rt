// What a message's fields hold: the last number of a field, its parts one after the other, a text as a part of the message.
//
// Everything is said of the message's row of fields and asks nothing of an earlier pass: on a message that no reader would take, the answers are those of
// the fields before its first broken one.
#![tactic(auto)]

ghost use Rattle.std.specs.Prelude.{◌≡◌, drop};
ghost use Rattle.wire.specs.Fields.{fields_of};
ghost use Rattle.wire_values.specs.Integers.{uint32_of, int32_of};
ghost use Rattle.wire_values.specs.Places.{front_of, text_place, NextPart, PlaceIs, Inside, inner_from, NextInner};
ghost use Rattle.wire_values.specs.Values.{numbers_of, parts_of, present, last_after, last_of, last_part, merged_fields, or_zero, number_in};

use wire::Body;

// The field at the front of a part.
#[derive(Clone, Copy)]
pub enum Front {
    // Its number, its value, and the field's length.
    Number(u64, u64, usize),
    // Its number, where its part starts, and how long that is.
    Part(u64, usize, usize),
    // The field's length.
    Fixed(usize),
}

// None where its key, its length or its value is broken.
pub fn read_front(s: &[u8]) -> Option<Front>
    ensures { result ≡ front_of s.now }
{
    let (f, w, n) = wire::read_key(s)?;
    match wire::read_body(w, &s[n..])? {
        Body::Number(v, m) => Some(Front::Number(f, v, n + m)),
        Body::Part(m, len) => Some(Front::Part(f, n + m, len)),
        Body::Fixed(m) => Some(Front::Fixed(n + m)),
    }
}

// The number, 0 where it is absent.
fn or_zero(last: Option<u64>) -> u64
    ensures { result ≡ or_zero last }
{
    last.unwrap_or(0)
}

// The last number of field n, or the one before.
fn last_after(s: &[u8], n: u64, before: Option<u64>) -> Option<u64>
    ensures { result ≡ last_after before (numbers_of n (fields_of s.now)) }
{
    let mut last = before;
    let mut at: usize = 0;
    while at < s.len() {
        match read_front(&s[at..]) {
            None => return last,
            Some(Front::Number(f, v, size)) => {
                if f == n {
                    last = Some(v);
                }
                at += size;
            }
            Some(Front::Part(_, start, len)) => at += start + len,
            Some(Front::Fixed(size)) => at += size,
        }
    }
    last
}

// The last number of field n.
pub fn last_number(s: &[u8], n: u64) -> Option<u64>
    ensures { result ≡ last_of (numbers_of n (fields_of s.now)) }
{
    last_after(s, n, None)
}

// The last number of field n, 0 where there is none.
pub fn number(s: &[u8], n: u64) -> u64
    ensures { result ≡ number_in n (fields_of s.now) }
{
    or_zero(last_number(s, n))
}

// The next part of field n from a place on: where it starts, its length, and the place behind it; None where there is none.
pub fn next_part(s: &[u8], from: usize, n: u64) -> Option<(usize, usize, usize)>
    ensures { NextPart n s.now from result }
{
    let mut at = from;
    while at < s.len() {
        match read_front(&s[at..])? {
            Front::Number(_, _, size) => at += size,
            Front::Part(f, start, len) => {
                let begin = at + start;
                let end = begin + len;
                if f == n {
                    return Some((begin, len, end));
                }
                at = end;
            }
            Front::Fixed(size) => at += size,
        }
    }
    None
}

// Whether field n has a part.
pub fn has_part(s: &[u8], n: u64) -> bool
    ensures { result ≡ present (parts_of n (fields_of s.now)) }
{
    next_part(s, 0, n).is_some()
}

// A part of a message: where it starts, and its length.
#[derive(Clone, Copy)]
pub struct Span {
    pub start: usize,
    pub length: usize,
}

// Where the last part of field n stands; an empty part where there is none.
pub fn last_part(s: &[u8], n: u64) -> Span
    ensures { PlaceIs s.now (text_place n s.now) result.start result.length }
{
    let mut at: usize = 0;
    let mut start: usize = 0;
    let mut length: usize = 0;
    while let Some((from, len, next)) = next_part(s, at, n) {
        start = from;
        length = len;
        at = next;
    }
    Span { start, length }
}

// The last part of field n, empty where there is none: a part of the message, never of the store.
pub fn text<'m, 's>(message: &'m [u8], store: &'s [u8], n: u64) -> &'m [u8]
    ensures { result.now ≡ last_part (parts_of n (fields_of message.now)) }
{
    let p = last_part(message, n);
    let start = p.start;
    let end = start + p.length;
    &message[start..end]
}

// The last number of field k in the singular message of field n, 0 where there is none.
pub fn inner_number(m: &[u8], n: u64, k: u64) -> u64
    ensures { result ≡ number_in k (merged_fields n (fields_of m.now)) }
{
    let mut last = None;
    let mut at: usize = 0;
    while let Some((start, _, end)) = next_part(m, at, n) {
        last = last_after(&m[start..end], k, last);
        at = end;
    }
    or_zero(last)
}

// A place among the parts of a field in a singular message: the message's next part is looked for from `outer` on; in this one, the field's next part is looked
// for from `at` to `end`.
#[derive(Clone, Copy)]
pub struct Cursor {
    pub outer: usize,
    pub at: usize,
    pub end: usize,
}

// The cursor before the first part.
pub fn first_inner() -> Cursor
    ensures { result ≡ record { outer = 0; at = 0; end = 0 } }
{
    Cursor {
        outer: 0,
        at: 0,
        end: 0,
    }
}

// The next part of field k in the singular message of field n: where it starts, its length, and the cursor behind it; None where there is none.
pub fn next_inner(m: &[u8], n: u64, k: u64, c: Cursor) -> Option<(usize, usize, Cursor)>
    requires { Inside m.now c }
    ensures { NextInner n k m.now c result }
{
    let mut outer = c.outer;
    let mut at = c.at;
    let mut end = c.end;
    loop {
        if let Some((start, len, next)) = next_part(&m[..end], at, k) {
            return Some((
                start,
                len,
                Cursor {
                    outer,
                    at: next,
                    end,
                },
            ));
        }
        let (from, len, next) = next_part(m, outer, n)?;
        at = from;
        end = from + len;
        outer = next;
    }
}

// The place of the next part of field n from a place on: what lies between holds no part of it.
fn seek_part(s: &[u8], from: usize, n: u64) -> usize
    ensures { parts_of n (fields_of (drop from s.now)) ≡ parts_of n (fields_of (drop result s.now)) }
{
    let mut at = from;
    while at < s.len() {
        match read_front(&s[at..]) {
            None => return at,
            Some(Front::Number(_, _, size)) => at += size,
            Some(Front::Part(f, start, len)) => {
                if f == n {
                    return at;
                }
                at += start + len;
            }
            Some(Front::Fixed(size)) => at += size,
        }
    }
    at
}

// The cursor directly before the next part of field k in the singular message of field n: what lies between is not passed again.
pub fn seek_inner(m: &[u8], n: u64, k: u64, c: Cursor) -> Cursor
    requires { Inside m.now c }
    ensures { Inside m.now result × (inner_from n k m.now result ≡ inner_from n k m.now c) }
{
    let mut outer = c.outer;
    let mut at = c.at;
    let mut end = c.end;
    loop {
        let found = seek_part(&m[..end], at, k);
        if found < end {
            return Cursor {
                outer,
                at: found,
                end,
            };
        }
        let Some((start, len, next)) = next_part(m, outer, n) else {
            return Cursor { outer, at, end };
        };
        at = start;
        end = start + len;
        outer = next;
    }
}

// The low 32 bits of a varint's value.
pub fn uint32(v: u64) -> u32
    ensures { result ≡ uint32_of v }
{
    (v % 4294967296) as u32
}

// The low 32 bits of a varint's value, as two's complement.
pub fn int32(v: u64) -> i32
    ensures { result ≡ int32_of v }
{
    let low = v % 4294967296;
    if low < 2147483648 {
        low as i32
    } else {
        -((4294967295 - low) as i32) - 1
    }
}
