// What a line of a log of calls is: a call, or what is wrong with it.
//
// A line is tested whole before anything is taken from it: the call's name, the number of words, then each word from the left. What is wrong is written where
// it is found. The words of a line that passes are read by the functions of `log_lines`.
#![tactic(auto)]

use log_text::{decimal, newline, quoted, text};
use std::io;
use std::io::Write;

// The most bytes that a word may stand for: those of `log_lines::large_buffer`.
const MAX_BYTES: usize = 65536;

// A call of the session.
#[derive(Clone, Copy)]
pub enum CallName {
    Open,
    Update,
    Response,
    Drain,
    Begin,
    Invalidate,
    // The session that was saved last.
    Restore,
}

// A line that asks and changes nothing.
#[derive(Clone, Copy)]
pub enum Question {
    // Which segment of the list that is held takes a key.
    Segment,
    // A key that falls in a segment of that list.
    Key,
    // What a holding of a segment costs.
    Charge,
    // Sum and largest of the lost counts.
    Churn,
    // Whether a second is open by a contract.
    IsOpen,
    // The earliest open second not before one.
    EarliestOpen,
    // Whether an uploader's log is what deltas ask for.
    CheckLog,
    // What the outer message of a connection carries.
    Command,
}

#[derive(Clone, Copy)]
pub enum Line {
    Call(CallName),
    Question(Question),
    // The session kept.
    Save,
}

// `LINE damaged: REASON`, where `at` is the line's number. Answers false: the line is no call.
pub fn damaged<W: Write>(to: &mut W, at: u64, reason: &[u8]) -> io::Result<bool> {
    decimal(to, at)?;
    text(to, b" damaged: ")?;
    text(to, reason)?;
    newline(to)?;
    Ok(false)
}

// The same, with the word that it is about behind the reason.
fn damaged_word<W: Write>(to: &mut W, at: u64, reason: &[u8], word: &[u8]) -> io::Result<bool> {
    decimal(to, at)?;
    text(to, b" damaged: ")?;
    text(to, reason)?;
    quoted(to, word)?;
    newline(to)?;
    Ok(false)
}

fn test_number<W: Write>(to: &mut W, at: u64, word: &[u8]) -> io::Result<bool> {
    if log_lines::number(word).is_some() {
        return Ok(true);
    }
    damaged_word(to, at, b"not a number: ", word)
}

fn test_length<W: Write>(to: &mut W, at: u64, n: usize, most: usize) -> io::Result<bool> {
    if n <= most {
        return Ok(true);
    }
    damaged(to, at, b"too long")
}

fn test_bytes<W: Write>(to: &mut W, at: u64, word: &[u8]) -> io::Result<bool> {
    if !slice::starts_with(word, b"0x") {
        return test_length(to, at, word.len(), MAX_BYTES);
    }
    if log_lines::is_hexadecimal(word) {
        return test_length(to, at, word.len(), 2 + 2 * MAX_BYTES);
    }
    damaged_word(to, at, b"not hexadecimal: ", word)
}

fn test_consumer_type<W: Write>(to: &mut W, at: u64, word: &[u8]) -> io::Result<bool> {
    if log_lines::place_of(b"stream checkpoint", word) < 2 {
        return Ok(true);
    }
    damaged_word(to, at, b"unknown kind ", word)
}

// A word is what its letter in the form of a call says.
fn test_word<W: Write>(to: &mut W, at: u64, word: &[u8], letter: u8) -> io::Result<bool> {
    match letter {
        b'n' => test_number(to, at, word),
        b'k' => test_consumer_type(to, at, word),
        _ => test_bytes(to, at, word),
    }
}

// A line has as many words as the form of its call has letters.
fn test_count<W: Write>(to: &mut W, at: u64, found: usize, count: usize) -> io::Result<bool> {
    if found < count {
        return damaged(to, at, b"too few words");
    }
    if count < found {
        return damaged(to, at, b"too many words");
    }
    Ok(true)
}

// Each word behind the call's name is what its letter says.
fn test_words<W: Write>(to: &mut W, at: u64, line: &[u8], form: &[u8]) -> io::Result<bool> {
    for (k, letter) in form.iter().enumerate().skip(1) {
        if !test_word(to, at, log_lines::word(line, k), *letter)? {
            return Ok(false);
        }
    }
    Ok(true)
}

// The line whose first word stands at this place among the names; None where it is none of them.
fn line_at(place: usize) -> Option<Line> {
    let line = match place {
        0 => Line::Call(CallName::Open),
        1 => Line::Call(CallName::Update),
        2 => Line::Call(CallName::Response),
        3 => Line::Call(CallName::Drain),
        4 => Line::Call(CallName::Begin),
        5 => Line::Call(CallName::Invalidate),
        6 => Line::Question(Question::Segment),
        7 => Line::Question(Question::Key),
        8 => Line::Question(Question::Charge),
        9 => Line::Question(Question::Churn),
        10 => Line::Question(Question::IsOpen),
        11 => Line::Question(Question::EarliestOpen),
        12 => Line::Question(Question::CheckLog),
        13 => Line::Question(Question::Command),
        14 => Line::Save,
        15 => Line::Call(CallName::Restore),
        _ => return None,
    };
    Some(line)
}

// Tests line number `at`; None where it is no call, and why was written. The form of a call has a letter for each word: `c` the call's name, `n` a number,
// `b` bytes, `k` a kind of consumer.
pub fn tested<W: Write>(to: &mut W, at: u64, line: &[u8]) -> io::Result<Option<Line>> {
    let name = log_lines::word(line, 0);
    let place = log_lines::place_of(
        b"open update response drain begin invalidate segment key charge churn is_open earliest_open check_log command save restore",
        name,
    );
    let Some(call) = line_at(place) else {
        damaged_word(to, at, b"unknown call ", name)?;
        return Ok(None);
    };
    let form = log_lines::word(
        b"cnnbbbk cnb cnb cn cn c cb cn cbnnn c cbn cbn cbb cb c c",
        place,
    );
    let count = log_lines::word_count(line);
    let passes = test_count(to, at, count, form.len())? && test_words(to, at, line, form)?;
    Ok(passes.then_some(call))
}
