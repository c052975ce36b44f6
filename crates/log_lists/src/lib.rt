// Packed lists and deltas as text, a row for each segment.
//
// The bytes are the session's own, so they are whole; of any that were cut short, rows would be left out. The contracts say only what keeps the functions in
// bounds; what is written is not proved.
#![tactic(auto)]

ghost use Rattle.std.specs.Prelude.{◌+◌, ◌*◌, ◌≤◌, length, IfOk};

use log_text::{hex4, labelled, newline, space, text};
use packed::{ASSIGNMENT_COUNT, ASSIGNMENT_HEAD, BUCKET, RECORD_HEAD};
use packed_delta::{GAINED_COUNT, LOST_COUNT};
use std::io;
use std::io::Write;

// The range in the 4 bytes from a place on: SSSS-EEEE.
fn range<W: Write>(to: &mut W, s: &[u8], at: usize) -> io::Result<()>
    requires { at + 4 ≤ length s.now }
{
    hex4(to, slice_int::read_u16(s, at))?;
    text(to, b"-")?;
    hex4(to, slice_int::read_u16(s, at + packed::RANGE_END))
}

// The n ranges from a place on, with a comma between two; `-` for none.
fn buckets<W: Write>(to: &mut W, s: &[u8], at: usize, n: usize) -> io::Result<()>
    requires { at + 4 * n ≤ length s.now }
{
    if n == 0 {
        return text(to, b"-");
    }
    range(to, s, at)?;
    for k in 1..n {
        text(to, b",")?;
        range(to, s, at + BUCKET * k)?;
    }
    Ok(())
}

// The record at a place as a row, `ID SSSS-EEEE BUCKETS` behind a label; the place behind it.
fn segment<W: Write>(to: &mut W, s: &[u8], label: &[u8], at: usize) -> io::Result<usize>
    requires { at ≤ length s.now }
    ensures { IfOk result (λ p. p ≤ length s.now) }
{
    let end = s.len();
    if end - at < RECORD_HEAD {
        return Ok(end);
    }
    let count = slice_int::read_u16(s, at + packed::RECORD_COUNT) as usize;
    if (end - at - RECORD_HEAD) / BUCKET < count {
        return Ok(end);
    }
    labelled(to, label, slice_int::read_u64(s, at))?;
    space(to)?;
    range(to, s, at + packed::RECORD_RANGE)?;
    space(to)?;
    buckets(to, s, at + RECORD_HEAD, count)?;
    newline(to)?;
    Ok(at + RECORD_HEAD + BUCKET * count)
}

// The n records from a place on, a row each.
fn segments<W: Write>(to: &mut W, s: &[u8], label: &[u8], at: usize, n: u16) -> io::Result<()>
    requires { at ≤ length s.now }
{
    let mut p = at;
    for _ in 0..n {
        p = segment(to, s, label, p)?;
    }
    Ok(())
}

// The n lost ids from a place on, a row each; the place behind them.
fn lost<W: Write>(to: &mut W, s: &[u8], at: usize, n: u16) -> io::Result<usize>
    requires { at ≤ length s.now }
    ensures { IfOk result (λ p. p ≤ length s.now) }
{
    let mut p = at;
    for _ in 0..n {
        if s.len() - p < packed_delta::ID {
            return Ok(s.len());
        }
        labelled(to, b"  lost ", slice_int::read_u64(s, p))?;
        newline(to)?;
        p += packed_delta::ID;
    }
    Ok(p)
}

// `epoch E lost L gained G` of the delta at the front of s.
pub fn delta_counts<W: Write>(to: &mut W, s: &[u8]) -> io::Result<()> {
    if s.len() < packed_delta::HEAD {
        return Ok(());
    }
    labelled(to, b"epoch ", slice_int::read_u64(s, 0))?;
    labelled(to, b" lost ", slice_int::read_u16(s, LOST_COUNT) as u64)?;
    labelled(to, b" gained ", slice_int::read_u16(s, GAINED_COUNT) as u64)
}

// How many ids the delta at the front of s loses.
pub fn lost_count(s: &[u8]) -> u64 {
    if s.len() < packed_delta::HEAD {
        return 0;
    }
    slice_int::read_u16(s, LOST_COUNT) as u64
}

// The lost ids and the gained records of the delta at the front of s, a row each.
pub fn changes<W: Write>(to: &mut W, s: &[u8]) -> io::Result<()> {
    if s.len() < packed_delta::HEAD {
        return Ok(());
    }
    let at = lost(
        to,
        s,
        packed_delta::HEAD,
        slice_int::read_u16(s, LOST_COUNT),
    )?;
    segments(
        to,
        s,
        b"  gained ",
        at,
        slice_int::read_u16(s, GAINED_COUNT),
    )
}

// `epoch E segments N` of the list at the front of s.
pub fn list_counts<W: Write>(to: &mut W, s: &[u8]) -> io::Result<()> {
    if s.len() < ASSIGNMENT_HEAD {
        return Ok(());
    }
    labelled(to, b"epoch ", slice_int::read_u64(s, 0))?;
    labelled(
        to,
        b" segments ",
        slice_int::read_u16(s, ASSIGNMENT_COUNT) as u64,
    )
}

// The segments of the list at the front of s, a row each behind a label.
pub fn list_rows<W: Write>(to: &mut W, s: &[u8], label: &[u8]) -> io::Result<()> {
    if s.len() < ASSIGNMENT_HEAD {
        return Ok(());
    }
    let count = slice_int::read_u16(s, ASSIGNMENT_COUNT);
    segments(to, s, label, ASSIGNMENT_HEAD, count)
}
