// Numbers in a descriptor: four hexadecimal digits, or a decimal id.
#![tactic(auto)]

ghost use Rattle.std.specs.Prelude.{◌≡◌};
ghost use Rattle.name_digits.specs.Digits.{hex_digit_of, hex_word, segment_id_of};

use name_parents::{DIGIT, HEX_LETTER, class_of};

// The value of a lower-case hexadecimal digit, or 16.
fn hex_digit_value(b: u8) -> u64
    ensures { result ≡ hex_digit_of b }
{
    let class = class_of(b);
    if class == DIGIT {
        return (b - 0x30) as u64;
    }
    if class == HEX_LETTER {
        return (b - 0x57) as u64;
    }
    16
}

// The value of four lower-case hexadecimal digits, or None.
pub fn hex_word(s: &[u8]) -> Option<u64>
    ensures { result ≡ hex_word s.now }
{
    if s.len() != 4 {
        return None;
    }
    let mut v: u64 = 0;
    let mut i: usize = 0;
    while i < 4 {
        let d = hex_digit_value(s[i]);
        if d == 16 {
            return None;
        }
        v = v * 16 + d;
        i += 1;
    }
    Some(v)
}

// The value of a decimal number below 2^64 without leading zeros, or None.
pub fn segment_id(s: &[u8]) -> Option<u64>
    ensures { result ≡ segment_id_of s.now }
{
    if s.len() == 0 {
        return None;
    }
    if s[0] == b'0' {
        if s.len() != 1 {
            return None;
        }
    }
    let mut v: u64 = 0;
    let mut i: usize = 0;
    while i < s.len() {
        let b = s[i];
        if class_of(b) != DIGIT {
            return None;
        }
        let d = (b - 0x30) as u64;
        if (u64::MAX - d) / 10 < v {
            return None;
        }
        v = v * 10 + d;
        i += 1;
    }
    Some(v)
}
