// Protocol Buffers fields read from the front of a part: varints, keys, and what stands behind a key.
//
// Every function takes a part of any length and content and answers what stands at its front, with its length, or that it is broken. What a message
// means, and which of its fields are known, is not known here.
#![tactic(auto)]

mod varint;

ghost use Rattle.std.specs.Prelude.{◌≡◌};
ghost use Rattle.wire.specs.Field.{key_read, fixed_of, part_of, body_of};

use varint::read_long_varint;
pub use varint::{read_short_varint, read_varint};

// The largest key, 2^32 - 1.
const MAX_KEY: u64 = 4294967295;

// The wire types of the encoding page that are in use.
#[derive(Clone, Copy)]
pub enum WireType {
    // 0
    Varint,
    // 1
    I64,
    // 2
    Len,
    // 5
    I32,
}

#[derive(Clone, Copy)]
pub enum Body {
    // A number, and its length in bytes.
    Number(u64, usize),
    // A value of this many bytes.
    Fixed(usize),
    // Where a part starts, and its length in bytes.
    Part(usize, usize),
}

// The key at the front of the part: the field's number and type, and the key's length in bytes; None where it is broken.
pub fn read_key(s: &[u8]) -> Option<(u64, WireType, usize)>
    ensures { result ≡ key_read s.now }
{
    let (v, n) = read_varint(s)?;
    if MAX_KEY < v {
        return None;
    }
    let number = v / 8;
    if number == 0 {
        return None;
    }
    match v % 8 {
        0 => Some((number, WireType::Varint, n)),
        1 => Some((number, WireType::I64, n)),
        2 => Some((number, WireType::Len, n)),
        5 => Some((number, WireType::I32, n)),
        _ => None,
    }
}

fn fixed(s: &[u8], n: usize) -> Option<Body>
    ensures { result ≡ fixed_of n s.now }
{
    if n <= s.len() {
        Some(Body::Fixed(n))
    } else {
        None
    }
}

fn part(s: &[u8]) -> Option<Body>
    ensures { result ≡ part_of s.now }
{
    let (v, n) = read_varint(s)?;
    let len = v as usize;
    if len <= s.len() - n {
        Some(Body::Part(n, len))
    } else {
        None
    }
}

// What stands behind a key of that type; None where it is broken. A number mostly has more than one byte, so it is read byte by byte.
pub fn read_body(w: WireType, s: &[u8]) -> Option<Body>
    ensures { result ≡ body_of w s.now }
{
    match w {
        WireType::Varint => {
            let (v, n) = read_long_varint(s)?;
            Some(Body::Number(v, n))
        }
        WireType::I64 => fixed(s, 8),
        WireType::Len => part(s),
        WireType::I32 => fixed(s, 4),
    }
}
