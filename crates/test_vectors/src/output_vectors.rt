// Deltas applied and joined, and packed assignments written as messages: the calls with an output.
use crate::buffers::{FILL, filled};
use crate::{buffers, print};
use log_text::labelled;
use refusal::Refusal;
use std::io;
use std::io::Write;

// apply ASSIGNMENT DELTA, join DELTA DELTA, to_pb ASSIGNMENT PARENT
fn call(place: usize, a: &[u8], b: &[u8], out: &mut [u8]) -> Result<usize, Refusal> {
    match place {
        0 => packed_apply::apply(a, b, out),
        1 => packed_join::join(a, b, out),
        _ => writer::to_pb(a, b, out),
    }
}

// A result of n bytes at the front of an output.
pub fn written<W: Write>(to: &mut W, out: &[u8], n: usize) -> io::Result<()> {
    labelled(to, b"written ", n as u64)?;
    print::bytes(to, buffers::front(out, n))?;
    print::stayed(to, buffers::blank(n, out))
}

// A refusal that leaves the output as it was.
fn unwritten<W: Write>(to: &mut W, x: Refusal, out: &[u8]) -> io::Result<()> {
    print::refusal(to, x)?;
    print::stayed(to, buffers::blank(0, out))
}

// Behind the command's two arguments stands the room that it has for its result.
pub fn run<W: Write>(to: &mut W, name: &[u8], line: &[u8], a: &[u8], b: &[u8]) -> io::Result<bool> {
    let place = log_lines::place_of(b"apply join to_pb", name);
    if 3 <= place {
        return Ok(false);
    }
    let mut out = filled(FILL);
    let room = log_lines::number_at(line, 3) as usize;
    match call(place, a, b, buffers::front_mut(&mut out, room)) {
        Ok(len) => written(to, &out, len)?,
        Err(x) => unwritten(to, x, &out)?,
    }
    Ok(true)
}
