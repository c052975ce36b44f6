// Words, numbers and bytes in lines of text: what the programs read from their input.
//
// A word is what stands between two spaces. It is a decimal number, or bytes: as they stand, or in hexadecimal behind 0x. The readers take any word for one of
// these; a program that wants to know asks `number` and `is_hexadecimal` first. The contracts say only what keeps the programs in bounds; what a program
// reads is not proved.
#![tactic(auto)]

ghost use Rattle.std.specs.Prelude.{◌≡◌, ◌≤◌, ◌<◌, length, take};
ghost use Rattle.std.specs.Io.{ReadsAtMost};

use std::io;
use std::io::Read;

// The bytes that stand in a row.
#[derive(Clone, Copy)]
pub enum ByteClass {
    // Any byte but this one.
    Not(u8),
    // A hexadecimal digit.
    Digit,
    // One that may be written as it stands between quotes: 20 to 7e, but no quote and no backslash.
    Plain,
}

fn is_plain(b: u8) -> bool {
    matches!(b, 0x20..=0x7e) && b != b'"' && b != b'\\'
}

impl ByteClass {
    fn has(self, b: u8) -> bool {
        match self {
            ByteClass::Not(x) => b != x,
            ByteClass::Digit => b.is_ascii_hexdigit(),
            ByteClass::Plain => is_plain(b),
        }
    }
}

// Where the bytes of a class, from a place on, end.
pub fn end_of(s: &[u8], from: usize, class: ByteClass) -> usize
    requires { from ≤ length s.now }
    ensures { (from ≤ result) × (result ≤ length s.now) }
{
    for i in from..s.len() {
        if !class.has(s[i]) {
            return i;
        }
    }
    s.len()
}

// Where the line that starts at a place ends.
pub fn line_end(s: &[u8], from: usize) -> usize
    requires { from ≤ length s.now }
    ensures { (from ≤ result) × (result ≤ length s.now) }
{
    end_of(s, from, ByteClass::Not(b'\n'))
}

// Part k of a text, counted from 0, with a separator between two; empty where there are not as many.
pub fn part(s: &[u8], k: usize, separator: u8) -> &[u8] {
    s.split(|b| *b == separator).nth(k).unwrap_or(&[])
}

// Word k of a line.
pub fn word(line: &[u8], k: usize) -> &[u8] {
    part(line, k, b' ')
}

// How many words a line has: one more than it has spaces.
pub fn word_count(line: &[u8]) -> usize {
    line.split(|b| *b == b' ').count()
}

// Where a word stands in a row of words, counted from 0; their number where it is none of them.
pub fn place_of(row: &[u8], w: &[u8]) -> usize {
    let count = word_count(row);
    (0..count)
        .find(|k| slice::same(word(row, *k), w))
        .unwrap_or(count)
}

// A word as a decimal number; None where it is none, or not below 2^64.
pub fn number(s: &[u8]) -> Option<u64> {
    if s.is_empty() {
        return None;
    }
    let mut v: u64 = 0;
    for b in s {
        if !b.is_ascii_digit() {
            return None;
        }
        v = v.checked_mul(10)?.checked_add(u64::from(*b - b'0'))?;
    }
    Some(v)
}

// Number k of a line; 0 where the word is none.
pub fn number_at(line: &[u8], k: usize) -> u64 {
    number(word(line, k)).unwrap_or(0)
}

// The same, cut to 32 bits.
pub fn number32_at(line: &[u8], k: usize) -> u32 {
    (number_at(line, k) % 4294967296) as u32
}

// The value of a hexadecimal digit; 0 for any other byte.
fn digit(b: u8) -> u8
    ensures { result < 16 }
{
    match b {
        b'0'..=b'9' => b - b'0',
        b'A'..=b'F' => b - b'A' + 10,
        b'a'..=b'f' => b - b'a' + 10,
        _ => 0,
    }
}

// Behind the 0x of a word stand digits alone, two for each byte.
pub fn is_hexadecimal(s: &[u8]) -> bool {
    2 <= s.len() && s.len() % 2 == 0 && end_of(s, 2, ByteClass::Digit) == s.len()
}

// Writes the bytes of a word in hexadecimal to the output, as many as fit, and answers how many.
fn unhex(s: &[u8], out: &mut [u8]) -> usize
    ensures in_bounds { result ≤ length out.new }
    ensures front { result ≡ length (take result out.new) }
{
    let n = out.len().min(s.len() / 2);
    for i in 0..n {
        out[i] = digit(s[2 * i]) * 16 + digit(s[2 * i + 1]);
    }
    n
}

// Writes the bytes of a word as they stand, as many as fit, and answers how many.
fn copy(s: &[u8], out: &mut [u8]) -> usize
    ensures in_bounds { result ≤ length out.new }
    ensures front { result ≡ length (take result out.new) }
{
    let n = out.len().min(s.len());
    out[..n].copy_from_slice(&s[..n]);
    n
}

// Writes the bytes that word k of a line stands for to the output, as many as fit, and answers how many.
pub fn bytes_at(line: &[u8], k: usize, out: &mut [u8]) -> usize
    ensures in_bounds { result ≤ length out.new }
    ensures front { result ≡ length (take result out.new) }
{
    let s = word(line, k);
    match s.strip_prefix(b"0x") {
        Some(digits) => unhex(digits, out),
        None => copy(s, out),
    }
}

// 4,096 zeros, to read the bytes of a word into. Its length is promised: a proof that meets the array itself would count it out.
pub fn buffer() -> [u8; 4096]
    ensures { 4096 ≡ length result }
{
    [0; 4096]
}

// 65,536 zeros, likewise.
pub fn large_buffer() -> [u8; 65536]
    ensures { 65536 ≡ length result }
{
    [0; 65536]
}

// Reads until the buffer is full or the input ends, and answers how many bytes it put at the front.
pub fn read_full<R: Read>(from: &mut R, buffer: &mut [u8]) -> io::Result<usize>
    ensures { ReadsAtMost result buffer.new }
{
    let mut n: usize = 0;
    while n < buffer.len() {
        let got = from.read(&mut buffer[n..])?;
        if got == 0 {
            return Ok(n);
        }
        n += got;
    }
    Ok(n)
}
