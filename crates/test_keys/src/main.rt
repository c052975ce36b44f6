// Runs vectors of the hash, of the lookup and of the test keys: reads one to a line from standard input and writes a line
// for each.
//
// A line is a command and its arguments, with a space between two; a line that starts with '#' is passed over. An argument
// is a decimal number, or bytes: as they stand, or in hexadecimal behind 0x; of a key at most 65,536, of an assignment at
// most 4,096. What each line should give is reckoned anew by tools/vectors.py, by other means.
#![tactic(auto)]

ghost use Rattle.std.specs.Prelude.{◌≡◌, length};

use key_for_hash::TestKey;
use log_text::{decimal, four_bytes, hex8, labelled, text};
use std::io;
use std::io::{BufWriter, Write};
use topic_types::SegmentId;

// The most bytes that are read.
const INPUT: usize = 262144;

// hash KEY: eight hexadecimal digits
fn hash<W: Write>(to: &mut W, line: &[u8]) -> io::Result<()> {
    let mut key = log_lines::large_buffer();
    let n = log_lines::bytes_at(line, 1, &mut key);
    hex8(to, key_murmur3::hash(&key[..n]))
}

// segment KEY ASSIGNMENT: the id, none, or the number of the refusal
fn segment<W: Write>(to: &mut W, line: &[u8]) -> io::Result<()> {
    let mut key = log_lines::large_buffer();
    let k = log_lines::bytes_at(line, 1, &mut key);
    let mut assignment = log_lines::buffer();
    let n = log_lines::bytes_at(line, 2, &mut assignment);
    match key_lookup::segment_for_key(&key[..k], &assignment[..n]) {
        Ok(Some(id)) => decimal(to, id.0),
        Ok(None) => text(to, b"none"),
        Err(x) => labelled(to, b"refused ", refusal::number(x) as u64),
    }
}

fn show_key<W: Write>(to: &mut W, key: TestKey) -> io::Result<()> {
    four_bytes(to, key.first, key.second, key.third, key.fourth)
}

// key HASH: the four bytes that have the hash
fn key<W: Write>(to: &mut W, line: &[u8]) -> io::Result<()> {
    show_key(
        to,
        key_for_hash::key_for_hash(log_lines::number32_at(line, 1)),
    )
}

// key_in ASSIGNMENT ID: the key that falls in the segment, none, or the number of the refusal
fn key_in<W: Write>(to: &mut W, line: &[u8]) -> io::Result<()> {
    let mut assignment = log_lines::buffer();
    let n = log_lines::bytes_at(line, 1, &mut assignment);
    let id = SegmentId(log_lines::number_at(line, 2));
    match key_in_segment::key_in_segment(&assignment[..n], id) {
        Ok(Some(k)) => show_key(to, k),
        Ok(None) => text(to, b"none"),
        Err(x) => labelled(to, b"refused ", refusal::number(x) as u64),
    }
}

fn run<W: Write>(to: &mut W, line: &[u8]) -> io::Result<()> {
    if slice::starts_with(line, b"#") {
        return Ok(());
    }
    match log_lines::place_of(b"hash segment key", log_lines::word(line, 0)) {
        0 => hash(to, line)?,
        1 => segment(to, line)?,
        2 => key(to, line)?,
        _ => key_in(to, line)?,
    }
    text(to, b"\n")
}

fn run_all<W: Write>(to: &mut W, text: &[u8]) -> io::Result<()> {
    let mut at: usize = 0;
    while at < text.len() {
        let end = log_lines::line_end(text, at);
        run(to, &text[at..end])?;
        at = end + 1;
    }
    Ok(())
}

// The length is promised: a proof that meets the array itself would count it out.
fn input() -> [u8; INPUT]
    ensures { 262144 ≡ length result }
{
    [0; INPUT]
}

fn main(rt: HostRuntime) -> io::Result<()> {
    let mut buffer = input();
    let n = log_lines::read_full(&mut rt.reader(), &mut buffer)?;
    let mut to = BufWriter::new(rt.alloc(), rt.stdout())?;
    run_all(&mut to, &buffer[..n])?;
    to.flush()
}
