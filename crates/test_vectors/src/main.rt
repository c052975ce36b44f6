// Runs vectors on the code: reads one to a line from standard input and writes a line for each.
//
// A line is a command and its arguments, with a space between two; a line that starts with '#' is passed over. An argument is a decimal number, or bytes: as they
// stand, or in hexadecimal behind 0x. Names and texts are answered as they stand, other bytes in hexadecimal. Behind the answer of a call that may write stands
// `same` where all bytes that must stay are so still. What each line should give is reckoned anew by tools/vectors.py, by other means.
#![tactic(auto)]

mod buffers;
mod delta_vectors;
mod intake_vectors;
mod name_vectors;
mod output_vectors;
mod packed_vectors;
mod print;
mod range_vectors;
mod watch_vectors;
mod wire_vectors;

use crate::buffers::{filled, front};
use log_text::text;
use std::io;
use std::io::{BufWriter, Read, Write};

// The most bytes that are read.
const INPUT: usize = 1048576;

// Runs a line whose words 1 and 2 stand for the bytes a and b.
fn run_command<W: Write>(to: &mut W, line: &[u8], a: &[u8], b: &[u8]) -> io::Result<()> {
    let name = log_lines::word(line, 0);
    let is_known = packed_vectors::run(to, name, a)?
        || name_vectors::run(to, name, line, b)?
        || range_vectors::run(to, name, line)?
        || wire_vectors::run(to, name, line, a, b)?
        || delta_vectors::run(to, name, a, b)?
        || output_vectors::run(to, name, line, a, b)?
        || intake_vectors::run(to, name, line, b)?
        || watch_vectors::run(to, name, line)?;
    if is_known {
        return Ok(());
    }
    text(to, b"unknown command\n")
}

fn run<W: Write>(to: &mut W, line: &[u8]) -> io::Result<()> {
    if slice::starts_with(line, b"#") {
        return Ok(());
    }
    let mut a = filled(0);
    let mut b = filled(0);
    let n = log_lines::bytes_at(line, 1, &mut a);
    let m = log_lines::bytes_at(line, 2, &mut b);
    run_command(to, line, &a[..n], &b[..m])
}

fn run_all<W: Write>(to: &mut W, text: &[u8]) -> io::Result<()> {
    let mut at: usize = 0;
    while at < text.len() {
        let end = log_lines::line_end(text, at);
        run(to, &text[at..end])?;
        at = end + 1;
    }
    Ok(())
}

fn run_input<R: Read, W: Write>(from: &mut R, to: &mut W, buffer: &mut [u8]) -> io::Result<()> {
    let n = log_lines::read_full(from, buffer)?;
    run_all(to, front(buffer, n))
}

fn main(rt: HostRuntime) -> io::Result<()> {
    let mut buffer = vec![in rt.alloc(); 0u8; INPUT]?;
    let mut to = BufWriter::new(rt.alloc(), rt.stdout())?;
    run_input(&mut rt.reader(), &mut to, buffer.as_mut_slice())?;
    to.flush()
}
