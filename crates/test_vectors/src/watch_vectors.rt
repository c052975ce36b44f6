// The topics watch.
//
//     watch WATCH_ID SET BUFFER USED MESSAGE OUT
//     long WATCH_ID SET BUFFER USED MESSAGE OUT LENGTH
//
// The set's buffer has BUFFER bytes, with SET at its front; USED is the length that is given for the set, and the output has OUT bytes. Before the call the bytes
// behind SET, and all of the output, are aa. `long` is for topics that no line could hold: it has `a` behind SET, and behind MESSAGE until LENGTH bytes are there,
// and answers lengths alone.
//
// The answer is `changed` with the lengths of the new set and of the output, then both, or `refused` with the number and what is attached to it, at 16 the broker's
// text too.
use crate::buffers::{FILL, blank, filled, front, front_mut, stay};
use crate::print;
use log_text::{attached, labelled};
use refusal::Refusal;
use std::io;
use std::io::Write;

// What the bytes behind a set are before a call.
fn fill_of(long: bool) -> u8 {
    if long { b'a' } else { FILL }
}

// The length of a message whose first n bytes stand in the line.
fn length_of(line: &[u8], long: bool, n: usize) -> usize {
    if long {
        log_lines::number_at(line, 7) as usize
    } else {
        n
    }
}

fn call(
    line: &[u8],
    buffer: &mut [u8],
    message: &[u8],
    out: &mut [u8],
) -> Result<(usize, usize), Refusal> {
    let id = log_lines::number_at(line, 1);
    let size = log_lines::number_at(line, 3) as usize;
    let used = log_lines::number_at(line, 4) as usize;
    let room = log_lines::number_at(line, 6) as usize;
    watch::handle_update(
        id,
        front_mut(buffer, size),
        used,
        message,
        front_mut(out, room),
    )
}

fn refused<W: Write>(to: &mut W, x: Refusal, broker: &[u8]) -> io::Result<()> {
    print::refusal(to, x)?;
    match x {
        Refusal::Broker { code: _ } => print::bytes(to, broker),
        _ => Ok(()),
    }
}

// The lengths of the new set and of the output, and both unless they are long.
fn changed<W: Write>(
    to: &mut W,
    long: bool,
    n: usize,
    m: usize,
    buffer: &[u8],
    out: &[u8],
) -> io::Result<()> {
    labelled(to, b"changed ", n as u64)?;
    attached(to, m as u64)?;
    if !long {
        print::bytes(to, front(buffer, n))?;
        print::bytes(to, front(out, m))?;
    }
    Ok(())
}

// Whether the bytes of the buffer from n on and those of the output from m on are as they were before.
fn stayed<W: Write>(
    to: &mut W,
    n: usize,
    m: usize,
    before: &[u8],
    buffer: &[u8],
    out: &[u8],
) -> io::Result<()> {
    print::stayed(to, stay(n, before, buffer) && blank(m, out))
}

// Writes an answer, and whether the bytes that must stay are as they were before.
fn told<W: Write>(
    to: &mut W,
    r: Result<(usize, usize), Refusal>,
    long: bool,
    message: &[u8],
    before: &[u8],
    buffer: &[u8],
    out: &[u8],
) -> io::Result<()> {
    match r {
        Ok((n, m)) => {
            changed(to, long, n, m, buffer, out)?;
            stayed(to, n, m, before, buffer, out)
        }
        Err(x) => {
            refused(to, x, watch::broker_text(message, buffer))?;
            stayed(to, 0, 0, before, buffer, out)
        }
    }
}

// watch, long: the message, and then the call on a buffer that is filled like the one before
fn run_watch<W: Write>(to: &mut W, line: &[u8], long: bool, message: &[u8]) -> io::Result<()> {
    let fill = fill_of(long);
    let mut before = filled(fill);
    let mut buffer = filled(fill);
    let mut out = filled(FILL);
    log_lines::bytes_at(line, 2, &mut before);
    log_lines::bytes_at(line, 2, &mut buffer);
    let r = call(line, &mut buffer, message, &mut out);
    told(to, r, long, message, &before, &buffer, &out)
}

fn with_message<W: Write>(to: &mut W, line: &[u8], long: bool) -> io::Result<()> {
    let mut message = filled(b'a');
    let n = log_lines::bytes_at(line, 5, &mut message);
    run_watch(to, line, long, front(&message, length_of(line, long, n)))
}

pub fn run<W: Write>(to: &mut W, name: &[u8], line: &[u8]) -> io::Result<bool> {
    match log_lines::place_of(b"watch long", name) {
        0 => with_message(to, line, false)?,
        1 => with_message(to, line, true)?,
        _ => return Ok(false),
    }
    Ok(true)
}
