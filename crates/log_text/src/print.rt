// Texts and numbers, written to a writer.
use log_lines::ByteClass;
use std::io;
use std::io::Write;

pub fn text<W: Write>(to: &mut W, s: &[u8]) -> io::Result<()> {
    to.write_all(s)
}

pub fn decimal<W: Write>(to: &mut W, n: u64) -> io::Result<()> {
    write!(to, "{n}")
}

pub fn space<W: Write>(to: &mut W) -> io::Result<()> {
    text(to, b" ")
}

pub fn newline<W: Write>(to: &mut W) -> io::Result<()> {
    text(to, b"\n")
}

// A label, then a number.
pub fn labelled<W: Write>(to: &mut W, label: &[u8], n: u64) -> io::Result<()> {
    text(to, label)?;
    decimal(to, n)
}

// A space, then a number.
pub fn attached<W: Write>(to: &mut W, n: u64) -> io::Result<()> {
    labelled(to, b" ", n)
}

// Two hexadecimal digits.
pub fn hex2<W: Write>(to: &mut W, b: u8) -> io::Result<()> {
    write!(to, "{b:02x}")
}

// Four hexadecimal digits.
pub fn hex4<W: Write>(to: &mut W, n: u16) -> io::Result<()> {
    write!(to, "{n:04x}")
}

// Eight hexadecimal digits.
pub fn hex8<W: Write>(to: &mut W, n: u32) -> io::Result<()> {
    write!(to, "{n:08x}")
}

// Four bytes in hexadecimal behind 0x, in their order.
pub fn four_bytes<W: Write>(
    to: &mut W,
    first: u8,
    second: u8,
    third: u8,
    fourth: u8,
) -> io::Result<()> {
    write!(to, "0x{first:02x}{second:02x}{third:02x}{fourth:02x}")
}

// A byte as \xHH.
fn escaped<W: Write>(to: &mut W, b: u8) -> io::Result<()> {
    text(to, b"\\x")?;
    hex2(to, b)
}

// A text between quotes, with every byte that is not plain as \xHH: no byte of it reaches a terminal as a command.
pub fn quoted<W: Write>(to: &mut W, s: &[u8]) -> io::Result<()> {
    text(to, b"\"")?;
    let mut at: usize = 0;
    while at < s.len() {
        let end = log_lines::end_of(s, at, ByteClass::Plain);
        text(to, &s[at..end])?;
        at = end;
        if at < s.len() {
            escaped(to, s[at])?;
            at += 1;
        }
    }
    text(to, b"\"")
}
