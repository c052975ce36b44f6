// Assignments of messages taken in.
use crate::buffers::{FILL, filled};
use crate::{buffers, print};
use log_text::{newline, text};
use packed::SLOT;
use refusal::Refusal;
use std::io;
use std::io::Write;

// The assignment of an update: field 2.
fn of_update(message: &[u8], parent: &[u8], b: &mut [u8; SLOT]) -> Result<usize, Refusal> {
    let head = wire_readers::read_update(message);
    intake::take_in(message, 2, parent, head.layout_epoch, b)
}

// The assignment of a response: field 4.
fn of_response(message: &[u8], parent: &[u8], b: &mut [u8; SLOT]) -> Result<usize, Refusal> {
    let head = wire_readers::read_response(message);
    intake::take_in(message, 4, parent, head.layout_epoch, b)
}

fn take_in(
    field: u64,
    parent: &[u8],
    message: &[u8],
    b: &mut [u8; SLOT],
) -> Result<usize, Refusal> {
    if field == 2 {
        return of_update(message, parent, b);
    }
    of_response(message, parent, b)
}

fn answer<W: Write>(to: &mut W, r: Result<usize, Refusal>, b: &[u8; SLOT]) -> io::Result<()> {
    match r {
        Ok(size) => {
            text(to, b"taken")?;
            print::bytes(to, buffers::front(b, size))?;
            newline(to)
        }
        Err(x) => print::refused(to, x),
    }
}

// intake FIELD PARENT MESSAGE: field 2 of an update, else field 4 of a response
pub fn run<W: Write>(to: &mut W, name: &[u8], line: &[u8], parent: &[u8]) -> io::Result<bool> {
    if !slice::same(name, b"intake") {
        return Ok(false);
    }
    let mut message = filled(0);
    let mut b = [FILL; SLOT];
    let m = log_lines::bytes_at(line, 3, &mut message);
    let r = take_in(log_lines::number_at(line, 1), parent, &message[..m], &mut b);
    answer(to, r, &b)?;
    Ok(true)
}
