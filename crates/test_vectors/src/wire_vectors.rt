// UTF-8, varints, messages and their values.
use crate::print;
use log_text::{newline, text};
use std::cmp::Ordering;
use std::io;
use std::io::Write;
use wire_messages::MessageKind;

// The messages by number, in the order of `MessageKind`.
fn kind(n: u64) -> MessageKind {
    match n {
        0 => MessageKind::CommandScalableTopicAssignmentUpdate,
        1 => MessageKind::CommandScalableTopicSubscribeResponse,
        2 => MessageKind::ScalableConsumerAssignment,
        3 => MessageKind::ScalableAssignedSegment,
        4 => MessageKind::IntRange,
        5 => MessageKind::CommandWatchScalableTopicsUpdate,
        6 => MessageKind::ScalableTopicsSnapshot,
        _ => MessageKind::ScalableTopicsDiff,
    }
}

// varint BYTES: the value and the length
fn varint<W: Write>(to: &mut W, bytes: &[u8]) -> io::Result<()> {
    match wire::read_varint(bytes) {
        Some((v, len)) => print::pair(to, v, len as u64),
        None => text(to, b"broken\n"),
    }
}

// fault KIND BYTES: the first fault of a message
fn fault<W: Write>(to: &mut W, line: &[u8], message: &[u8]) -> io::Result<()> {
    match wire_messages::first_fault(kind(log_lines::number_at(line, 1)), message) {
        Ok(()) => text(to, b"valid\n"),
        Err(x) => print::refused(to, x),
    }
}

// last FIELD BYTES: the last number of a field
fn last<W: Write>(to: &mut W, line: &[u8], message: &[u8]) -> io::Result<()> {
    match wire_values::last_number(message, log_lines::number_at(line, 1)) {
        Some(v) => print::number(to, v),
        None => text(to, b"absent\n"),
    }
}

// text FIELD BYTES: the last part of a field
fn last_text<W: Write>(to: &mut W, line: &[u8], message: &[u8]) -> io::Result<()> {
    let found = wire_values::text(message, line, log_lines::number_at(line, 1));
    text(to, found)?;
    newline(to)
}

// uint32 NUMBER: a varint's value as an unsigned 32-bit integer
fn uint32<W: Write>(to: &mut W, line: &[u8]) -> io::Result<()> {
    print::number(
        to,
        wire_values::uint32(log_lines::number_at(line, 1)) as u64,
    )
}

// int32 NUMBER NUMBER: how two varints' values compare as signed 32-bit integers
fn int32<W: Write>(to: &mut W, line: &[u8]) -> io::Result<()> {
    let a = wire_values::int32(log_lines::number_at(line, 1));
    let b = wire_values::int32(log_lines::number_at(line, 2));
    match a.cmp(&b) {
        Ordering::Less => text(to, b"less\n"),
        Ordering::Equal => text(to, b"equal\n"),
        Ordering::Greater => text(to, b"greater\n"),
    }
}

// utf8 BYTES
fn utf8<W: Write>(to: &mut W, bytes: &[u8]) -> io::Result<()> {
    print::yes(to, utf8::is_utf8(bytes))
}

pub fn run<W: Write>(to: &mut W, name: &[u8], line: &[u8], a: &[u8], b: &[u8]) -> io::Result<bool> {
    match log_lines::place_of(b"utf8 varint fault last text uint32 int32", name) {
        0 => utf8(to, a)?,
        1 => varint(to, a)?,
        2 => fault(to, line, b)?,
        3 => last(to, line, b)?,
        4 => last_text(to, line, b)?,
        5 => uint32(to, line)?,
        6 => int32(to, line)?,
        _ => return Ok(false),
    }
    Ok(true)
}
