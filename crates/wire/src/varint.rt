// Varints read from the front of a part.
//
// The three readers give the same answer: `read_varint` is quick where one byte is usual, `read_short_varint` where one to three are,
// `read_long_varint` where more are.
ghost use Rattle.std.specs.Prelude.{◌≡◌};
ghost use Rattle.wire.specs.Varints.{varint_of};

use slice::wide;

// The varint at the front of the part, byte by byte: its value, and its length in bytes; None where it is broken. With two callers it stays a function of its own, and the one test of `read_varint` is
// inlined where keys and lengths are read.
pub fn read_long_varint(s: &[u8]) -> Option<(u64, usize)>
    ensures { result ≡ varint_of s.now }
{
    let mut value: u64 = 0;
    let mut weight: u64 = 1;
    let mut i: usize = 0;
    while i < 9 {
        if s.len() <= i {
            return None;
        }
        let b = wide(s[i]);
        if b < 128 {
            return Some((value + weight * b, i + 1));
        }
        value += weight * (b - 128);
        weight *= 128;
        i += 1;
    }
    if s.len() <= 9 {
        return None;
    }
    let last = wide(s[9]);
    if last <= 1 {
        Some((value + weight * last, 10))
    } else {
        None
    }
}

// The same, for a varint that mostly has one byte, as keys and lengths do: one test tells it.
pub fn read_varint(s: &[u8]) -> Option<(u64, usize)>
    ensures { result ≡ varint_of s.now }
{
    if s.len() == 0 {
        return None;
    }
    let b = wide(s[0]);
    if b < 128 {
        return Some((b, 1));
    }
    read_long_varint(s)
}

// The same, for a varint that mostly has one, two or three bytes, as the numbers of a message do: a test for each byte tells it.
pub fn read_short_varint(s: &[u8]) -> Option<(u64, usize)>
    ensures { result ≡ varint_of s.now }
{
    if s.len() == 0 {
        return None;
    }
    let a = wide(s[0]);
    if a < 128 {
        return Some((a, 1));
    }
    if s.len() == 1 {
        return None;
    }
    let b = wide(s[1]);
    if b < 128 {
        return Some((a - 128 + 128 * b, 2));
    }
    if s.len() == 2 {
        return None;
    }
    let c = wide(s[2]);
    if c < 128 {
        return Some((a - 128 + 128 * (b - 128) + 16384 * c, 3));
    }
    read_long_varint(s)
}
