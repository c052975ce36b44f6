// Answers, written to a writer.
use log_text::{attached, decimal, hex2, labelled, newline, text};
use refusal::Refusal;
use std::io;
use std::io::Write;

pub fn number<W: Write>(to: &mut W, n: u64) -> io::Result<()> {
    decimal(to, n)?;
    newline(to)
}

pub fn pair<W: Write>(to: &mut W, a: u64, b: u64) -> io::Result<()> {
    decimal(to, a)?;
    attached(to, b)?;
    newline(to)
}

pub fn yes<W: Write>(to: &mut W, b: bool) -> io::Result<()> {
    if b {
        text(to, b"yes\n")
    } else {
        text(to, b"no\n")
    }
}

pub fn malformed<W: Write>(to: &mut W) -> io::Result<()> {
    text(to, b"malformed\n")
}

// Bytes in hexadecimal.
pub fn bytes<W: Write>(to: &mut W, s: &[u8]) -> io::Result<()> {
    text(to, b" 0x")?;
    for b in s {
        hex2(to, *b)?;
    }
    Ok(())
}

// A refusal's number and the numbers attached to it, one that is negative as a word of 64 bits in two's complement.
pub fn refusal<W: Write>(to: &mut W, x: Refusal) -> io::Result<()> {
    let r = export_reply::refused(x);
    labelled(to, b"refused ", r.number as u64)?;
    log_text::values(to, r)
}

// A refusal of a call that writes nothing.
pub fn refused<W: Write>(to: &mut W, x: Refusal) -> io::Result<()> {
    refusal(to, x)?;
    newline(to)
}

// Whether the bytes that must stay are as they were.
pub fn stayed<W: Write>(to: &mut W, b: bool) -> io::Result<()> {
    if b {
        text(to, b" same\n")
    } else {
        text(to, b" changed\n")
    }
}
