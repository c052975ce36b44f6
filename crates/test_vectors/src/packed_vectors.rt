// Packed assignments read: alone, and at the front of a slot.
use crate::print;
use std::io;
use std::io::Write;

// The size and the count of segments.
fn answer<W: Write>(to: &mut W, r: Option<(usize, usize)>) -> io::Result<()> {
    match r {
        Some((size, count)) => print::pair(to, size as u64, count as u64),
        None => print::malformed(to),
    }
}

// assignment BYTES, front BYTES
pub fn run<W: Write>(to: &mut W, name: &[u8], bytes: &[u8]) -> io::Result<bool> {
    match log_lines::place_of(b"assignment front", name) {
        0 => answer(to, packed::read_whole(bytes))?,
        1 => answer(to, packed::read_front(bytes))?,
        _ => return Ok(false),
    }
    Ok(true)
}
