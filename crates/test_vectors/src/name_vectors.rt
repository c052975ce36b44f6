// Names of segments built and read, and the parents of names.
use crate::{buffers, print};
use log_text::{attached, decimal, newline, text};
use refusal::Refusal;
use std::io;
use std::io::Write;
use topic_types::SegmentId;

fn answer<W: Write>(to: &mut W, r: Result<usize, Refusal>, out: &[u8]) -> io::Result<()> {
    match r {
        Ok(n) => {
            text(to, buffers::front(out, n))?;
            newline(to)
        }
        Err(x) => print::refused(to, x),
    }
}

// build ROOM PARENT START END ID: the output has ROOM bytes, 256 at most
fn build(line: &[u8], parent: &[u8], out: &mut [u8]) -> Result<usize, Refusal> {
    let start = log_lines::number32_at(line, 3);
    let end = log_lines::number32_at(line, 4);
    let id = SegmentId(log_lines::number_at(line, 5));
    name_topic::canonical_segment_topic(parent, start, end, id, out)
}

// parent ROOM NAME
fn written<W: Write>(to: &mut W, is_build: bool, line: &[u8], b: &[u8]) -> io::Result<()> {
    let mut buffer = [0u8; 256];
    let out = buffers::front_mut(&mut buffer, log_lines::number_at(line, 1) as usize);
    if is_build {
        let r = build(line, b, out);
        answer(to, r, out)
    } else {
        let r = name_source::parent_topic(b, out);
        answer(to, r, out)
    }
}

// source ID NAME
fn source<W: Write>(to: &mut W, line: &[u8], name: &[u8]) -> io::Result<()> {
    match name_source::segment_source(SegmentId(log_lines::number_at(line, 1)), name) {
        Ok(s) => {
            decimal(to, s.segment_id.0)?;
            attached(to, s.key_range.start as u64)?;
            attached(to, s.key_range.end as u64)?;
            newline(to)
        }
        Err(x) => print::refused(to, x),
    }
}

pub fn run<W: Write>(to: &mut W, name: &[u8], line: &[u8], b: &[u8]) -> io::Result<bool> {
    match log_lines::place_of(b"build parent source", name) {
        0 => written(to, true, line, b)?,
        1 => written(to, false, line, b)?,
        2 => source(to, line, b)?,
        _ => return Ok(false),
    }
    Ok(true)
}
