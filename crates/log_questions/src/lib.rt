// Lines that ask and change nothing: about the list that is held, or about what the line itself has. The answer is
// written behind the call's name.
//
// Each function answers whether what it wrote is a refusal. The contracts say only what keeps the functions in bounds;
// what is written is not proved.
#![tactic(auto)]

mod commands;
mod segments;

use log_calls::Question;
use log_text::{decimal, labelled, refused, text};
use std::io;
use std::io::Write;

fn none<W: Write>(to: &mut W) -> io::Result<bool> {
    text(to, b"none")?;
    Ok(false)
}

fn number<W: Write>(to: &mut W, n: u64) -> io::Result<bool> {
    decimal(to, n)?;
    Ok(false)
}

// Two numbers, each behind its label.
fn pair<W: Write>(to: &mut W, first: &[u8], n: u64, second: &[u8], m: u64) -> io::Result<bool> {
    labelled(to, first, n)?;
    labelled(to, second, m)?;
    Ok(false)
}

fn yes<W: Write>(to: &mut W, b: bool) -> io::Result<bool> {
    if b {
        text(to, b"yes")?;
    } else {
        text(to, b"no")?;
    }
    Ok(false)
}

// The charge of a holding, and the remainder for the segment's next one.
fn charge<W: Write>(to: &mut W, segment: &[u8], line: &[u8]) -> io::Result<bool> {
    let answer = charge::charge(
        segment,
        log_lines::number_at(line, 2),
        log_lines::number_at(line, 3),
        log_lines::number_at(line, 4),
    );
    match answer {
        Ok((cost, remainder)) => { pair(to, b"charged ", cost, b" remainder ", remainder) }
        Err(x) => refused(to, x),
    }
}

// Sum and largest of the lost counts.
pub fn churn<W: Write>(to: &mut W, window: &[u8]) -> io::Result<bool> {
    match churn::current(window) {
        Ok(t) => pair(to, b"lost ", t.sum, b" largest ", t.largest),
        Err(x) => refused(to, x),
    }
}

// Whether a second is open.
fn is_open<W: Write>(to: &mut W, contract: &[u8], second: u64) -> io::Result<bool> {
    match hours::is_open(contract, second) {
        Ok(b) => yes(to, b),
        Err(x) => refused(to, x),
    }
}

// The earliest open second.
fn earliest_open<W: Write>(to: &mut W, contract: &[u8], second: u64) -> io::Result<bool> {
    match hours::earliest_open(contract, second) {
        Ok(Some(at)) => number(to, at),
        Ok(None) => none(to),
        Err(x) => refused(to, x),
    }
}

// Whether a log passes.
fn check_log<W: Write>(to: &mut W, deltas: &[u8], line: &[u8]) -> io::Result<bool> {
    let mut log = log_lines::large_buffer();
    let n = log_lines::bytes_at(line, 2, &mut log);
    match attach_log::check(deltas, &log[..n]) {
        Ok(b) => yes(to, b),
        Err(x) => refused(to, x),
    }
}

// The answer to a line whose first word behind the name stands for these bytes. The list is what the slot of the list
// that is held has, and empty where none is held.
fn answer<W: Write>(
    to: &mut W,
    question: Question,
    bytes: &[u8],
    line: &[u8],
    list: &[u8],
    window: &[u8],
) -> io::Result<bool> {
    match question {
        Question::Segment => segments::segment(to, list, bytes),
        Question::Key => segments::key(to, list, log_lines::number_at(line, 1)),
        Question::Charge => charge(to, bytes, line),
        Question::Churn => churn(to, window),
        Question::IsOpen => is_open(to, bytes, log_lines::number_at(line, 2)),
        Question::EarliestOpen => earliest_open(to, bytes, log_lines::number_at(line, 2)),
        Question::CheckLog => check_log(to, bytes, line),
        Question::Command => commands::carried(to, bytes),
    }
}

// Writes the answer to a line.
pub fn ask<W: Write>(
    to: &mut W,
    question: Question,
    line: &[u8],
    list: &[u8],
    window: &[u8],
) -> io::Result<bool> {
    let mut bytes = log_lines::large_buffer();
    let n = log_lines::bytes_at(line, 1, &mut bytes);
    answer(to, question, &bytes[..n], line, list, window)
}
