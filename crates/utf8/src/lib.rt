// Whether a part is UTF-8, by Unicode's Table 3-7, "Well-Formed UTF-8 Byte Sequences".
//
// `sequence` is that table, line by line: its rows in their order, each with the spans of its bytes. `is_utf8` goes
// through the part sequence by sequence; behind one of the first row it passes over what follows of that row, eight
// bytes at a time.
#![tactic(auto)]

ghost use Rattle.std.specs.Prelude.{◌≡◌, true, cond, ◌&&◌, [], ◌∷◌, ◌+◌, ◌≤◌, length, drop, ltb};
ghost use Rattle.utf8.specs.Table.{span, fits, sequence_of, is_utf8};
ghost use Rattle.utf8.specs.Passes.{Passes, Ascii};

// The byte values from the first to the second.
#[derive(Clone, Copy)]
struct Span(u8, u8);

// The byte at the place i is there and lies in the span.
fn in_span(s: &[u8], i: usize, byte: Span) -> bool
    ensures { result ≡ fits (span byte.0 byte.1 ∷ []) (drop i s.now) }
{
    i < s.len() && byte.0 <= s[i] && s[i] <= byte.1
}

// 2 where the second byte lies in its span, else 0.
fn two(s: &[u8], second: Span) -> usize
    ensures { result ≡ cond (fits (span second.0 second.1 ∷ []) (drop 1 s.now)) 2 0 }
{
    if in_span(s, 1, second) { 2 } else { 0 }
}

// 3 where the second and the third byte lie in their spans, else 0.
fn three(s: &[u8], second: Span, third: Span) -> usize
    ensures { result ≡ cond
        (fits (span second.0 second.1 ∷ span third.0 third.1 ∷ []) (drop 1 s.now)) 3 0 }
{
    if in_span(s, 1, second) && in_span(s, 2, third) {
        3
    } else {
        0
    }
}

// 4 where the second, the third and the fourth byte lie in their spans, else 0.
fn four(s: &[u8], second: Span, third: Span, fourth: Span) -> usize
    ensures { result ≡ cond
        (fits (span second.0 second.1 ∷ span third.0 third.1 ∷ span fourth.0 fourth.1 ∷ [])
        (drop 1 s.now)) 4 0 }
{
    if in_span(s, 1, second) && in_span(s, 2, third) && in_span(s, 3, fourth) {
        4
    } else {
        0
    }
}

// The length of the well-formed sequence at the front of the part, or 0 where there is none. A line of the match is a
// row of the table: the span of the first byte, then those of the bytes behind it.
pub fn sequence(s: &[u8]) -> usize
    ensures { result ≡ sequence_of s.now }
{
    if s.len() == 0 {
        return 0;
    }
    let lead = s[0];
    match lead {
        0x00..=0x7F => 1,
        0xC2..=0xDF => two(s, Span(0x80, 0xBF)),
        0xE0 => three(s, Span(0xA0, 0xBF), Span(0x80, 0xBF)),
        0xE1..=0xEC => three(s, Span(0x80, 0xBF), Span(0x80, 0xBF)),
        0xED => three(s, Span(0x80, 0x9F), Span(0x80, 0xBF)),
        0xEE..=0xEF => three(s, Span(0x80, 0xBF), Span(0x80, 0xBF)),
        0xF0 => four(s, Span(0x90, 0xBF), Span(0x80, 0xBF), Span(0x80, 0xBF)),
        0xF1..=0xF3 => four(s, Span(0x80, 0xBF), Span(0x80, 0xBF), Span(0x80, 0xBF)),
        0xF4 => four(s, Span(0x80, 0x8F), Span(0x80, 0xBF), Span(0x80, 0xBF)),
        _ => 0,
    }
}

// The eight bytes from a place on are all of the first row. They are counted with no way out of the loop, so that a
// machine may test them at once.
fn eight_ascii(s: &[u8], at: usize) -> bool
    requires { at + 8 ≤ length s.now }
    ensures { result ≡ true → is_utf8 (drop at s.now) ≡ is_utf8 (drop (at + 8) s.now) }
{
    let mut others: usize = 0;
    let mut i: usize = 0;
    while i < 8 {
        if 0x7F < s[at + i] {
            others += 1;
        }
        i += 1;
    }
    others == 0
}

// The place behind the bytes of the first row from a place on, as far as there are eight of them together.
fn eights_end(s: &[u8], from: usize) -> usize
    requires { from ≤ length s.now }
    ensures { Passes s.now from result }
{
    let mut at = from;
    while 8 <= s.len() - at {
        if !eight_ascii(s, at) {
            return at;
        }
        at += 8;
    }
    at
}

// The place behind the bytes of the first row from a place on.
fn ascii_end(s: &[u8], from: usize) -> usize
    requires { from ≤ length s.now }
    ensures { Passes s.now from result }
{
    let mut at = eights_end(s, from);
    while at < s.len() {
        if 0x7F < s[at] {
            return at;
        }
        at += 1;
    }
    at
}

// Whether bytes are of the first row still with one more.
fn stays_ascii(ascii: bool, b: u8) -> bool
    ensures { result ≡ (ascii && ltb b 128) }
{
    ascii && b < 0x80
}

// The 16 bytes from a place on are all of the first row. There is no way out of the loop, so that a machine may test them at once.
fn block_ascii(s: &[u8], at: usize) -> bool
    requires { at + 16 ≤ length s.now }
    ensures { result ≡ true → Ascii s.now at (at + 16) }
{
    let mut ascii = true;
    let mut i: usize = 0;
    while i < 16 {
        ascii = stays_ascii(ascii, s[at + i]);
        i += 1;
    }
    ascii
}

// The part has 16 bytes or more, and all are of the first row. The last ones, which may not fill a block, are compared with those before them
// once more.
pub fn all_ascii(s: &[u8]) -> bool
    ensures { result ≡ true → Ascii s.now 0 (length s.now) }
{
    if s.len() < 16 {
        return false;
    }
    let mut at: usize = 0;
    while 16 <= s.len() - at {
        if !block_ascii(s, at) {
            return false;
        }
        at += 16;
    }
    block_ascii(s, s.len() - 16)
}

// The part is UTF-8, sequence by sequence.
fn is_text(s: &[u8]) -> bool
    ensures { result ≡ is_utf8 s.now }
{
    let mut at: usize = 0;
    while at < s.len() {
        let n = sequence(&s[at..]);
        if n == 0 {
            return false;
        }
        at += n;
        if n == 1 {
            at = ascii_end(s, at);
        }
    }
    true
}

// The part is UTF-8. Most have nothing but bytes of the first row.
pub fn is_utf8(s: &[u8]) -> bool
    ensures { result ≡ is_utf8 s.now }
{
    all_ascii(s) || is_text(s)
}
