// The end of a segment's name, `/ssss-eeee-id`: built in an array, the id from its last digit to its first, then what stands before it; or compared with
// the bytes at a place, digit by digit of the id and four at a time of the range.
ghost use Rattle.std.specs.Prelude.{◌≡◌, ◌∷◌, ◌+◌, ◌≤◌, ◌<◌, length, take, drop};
ghost use Rattle.slice.specs.Same.{same_bytes};
ghost use Rattle.slice_int.specs.Be.{be};
ghost use Rattle.slice_int.specs.Put.{put};
ghost use Rattle.name_topic.specs.Names.{hex_digit, hex4, decimal, descriptor};
ghost use Rattle.name_topic.specs.Answers.{DecimalIs, DescriptorIs};

use topic_types::{KeyRange, SegmentId};

// The bytes of an array from a place on. A descriptor has at most 31.
#[derive(Clone, Copy)]
pub struct Tail {
    pub bytes: [u8; 32],
    pub from: usize,
}

// The hexadecimal digit of a value: a letter stands 39 places behind where a tenth digit and those after it would.
fn hex_digit(n: u32) -> u8
    requires { n < 16 }
    ensures { result ≡ hex_digit n }
{
    (0x30 + n + (n + 6) / 16 * 39) as u8
}

// Writes a mark and four hexadecimal digits from the place at on.
fn put_word(out: &mut [u8], at: usize, mark: u8, v: u32)
    requires { at + 5 ≤ length out.old }
    ensures { out.new ≡ put out.old at (mark ∷ hex4 v) }
{
    out[at] = mark;
    out[at + 1] = hex_digit(v / 4096 % 16);
    out[at + 2] = hex_digit(v / 256 % 16);
    out[at + 3] = hex_digit(v / 16 % 16);
    out[at + 4] = hex_digit(v % 16);
}

// The decimal digit of a value.
fn digit(v: u64) -> u8
    requires { v < 10 }
    ensures { result ≡ 0x30 + v }
{
    (0x30 + v) as u8
}

// A number's decimal digits, at the array's end.
fn put_decimal(id: u64) -> Tail
    ensures { DecimalIs id result }
{
    let mut bytes = [0u8; 32];
    let mut from: usize = 32;
    let mut v = id;
    while 10 <= v {
        from = from - 1;
        bytes[from] = digit(v % 10);
        v = v / 10;
    }
    from = from - 1;
    bytes[from] = digit(v);
    Tail { bytes, from }
}

// What follows the path in the name of a segment.
pub fn descriptor_of(range: KeyRange, id: SegmentId) -> Tail
    ensures { DescriptorIs range id result }
{
    let t = put_decimal(id.0);
    let mut bytes = t.bytes;
    let from = t.from - 11;
    put_word(&mut bytes, from, b'/', range.start);
    put_word(&mut bytes, from + 5, b'-', range.end);
    bytes[from + 10] = b'-';
    Tail { bytes, from }
}

// Four hexadecimal digits as a number of 4 bytes: the values of all digits, a byte each, then which of them are letters.
fn hex_word(v: u32) -> u32
    ensures { result ≡ be (hex4 v) }
{
    let high = v / 4096 % 16 * 16777216 + v / 256 % 16 * 65536;
    let values = high + v / 16 % 16 * 256 + v % 16;
    let letters = ((values + 0x0606_0606) / 16) & 0x0101_0101;
    values + 0x3030_3030 + letters * 39
}

// A mark and four hexadecimal digits stand from the place at on.
fn is_word(s: &[u8], at: usize, mark: u8, v: u32) -> bool
    requires { at + 5 ≤ length s.now }
    ensures { result ≡ same_bytes (take 5 (drop at s.now)) (mark ∷ hex4 v) }
{
    if s[at] != mark {
        return false;
    }
    slice_int::read_u32(s, at + 1) == hex_word(v)
}

// What stands from the place at on is a number in decimal: its digits are compared from the last to the first.
fn is_decimal(s: &[u8], at: usize, id: u64) -> bool
    requires { at < length s.now }
    ensures { result ≡ same_bytes (drop at s.now) (decimal id) }
{
    let mut end = s.len();
    let mut v = id;
    while 10 <= v {
        if end <= at {
            return false;
        }
        end = end - 1;
        if s[end] != digit(v % 10) {
            return false;
        }
        v = v / 10;
    }
    if end != at + 1 {
        return false;
    }
    s[at] == digit(v)
}

// What stands from the place at on follows the path in the name of a segment.
pub fn is_descriptor(s: &[u8], at: usize, range: KeyRange, id: SegmentId) -> bool
    requires { at + 12 ≤ length s.now }
    ensures { result ≡ same_bytes (drop at s.now) (descriptor range id) }
{
    if !is_word(s, at, b'/', range.start) {
        return false;
    }
    if !is_word(s, at + 5, b'-', range.end) {
        return false;
    }
    if s[at + 10] != b'-' {
        return false;
    }
    is_decimal(s, at + 11, id.0)
}
