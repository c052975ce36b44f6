// Ranges at the limits: the calls on ranges, and rows of ranges.
ghost use Rattle.std.specs.Prelude.{◌≤◌};
ghost use Rattle.ranges_marks.specs.Marks.{row_size};

use crate::print;
use ranges_marks::ROW;
use refusal::Refusal;
use std::io;
use std::io::Write;
use topic_types::KeyRange;

// length START END
fn length<W: Write>(to: &mut W, line: &[u8]) -> io::Result<()> {
    match ranges_calls::len(
        log_lines::number32_at(line, 1),
        log_lines::number32_at(line, 2),
    ) {
        Ok(n) => print::number(to, n as u64),
        Err(x) => print::refused(to, x),
    }
}

fn told<W: Write>(to: &mut W, r: Result<bool, Refusal>) -> io::Result<()> {
    match r {
        Ok(b) => print::yes(to, b),
        Err(x) => print::refused(to, x),
    }
}

// contains START END HASH, contains_range START END START END, touches START END START END
fn test<W: Write>(to: &mut W, place: usize, line: &[u8]) -> io::Result<()> {
    let start = log_lines::number32_at(line, 1);
    let end = log_lines::number32_at(line, 2);
    let third = log_lines::number32_at(line, 3);
    let fourth = log_lines::number32_at(line, 4);
    match place {
        0 => told(to, ranges_calls::contains(start, end, third)),
        1 => told(to, ranges_calls::contains_range(start, end, third, fourth)),
        _ => told(to, ranges_calls::is_adjacent_to(start, end, third, fourth)),
    }
}

// Two of the first n ranges share a value.
fn share<W: Write>(to: &mut W, row: [KeyRange; ROW], n: usize) -> io::Result<()>
    requires { n ≤ row_size }
{
    let mut words = [0u64; ranges_marks::WORDS];
    print::yes(to, ranges_marks::mark_first(row, n, &mut words))
}

// overlap COUNT and COUNT pairs START END, 506 at most
fn overlap<W: Write>(to: &mut W, line: &[u8]) -> io::Result<()> {
    let mut row = [KeyRange { start: 0, end: 0 }; ROW];
    let count = log_lines::number_at(line, 1) as usize;
    let n = count.min(ROW);
    for k in 0..n {
        let start = log_lines::number32_at(line, 2 * k + 2);
        let end = log_lines::number32_at(line, 2 * k + 3);
        row[k] = KeyRange { start, end };
    }
    share(to, row, n)
}

pub fn run<W: Write>(to: &mut W, name: &[u8], line: &[u8]) -> io::Result<bool> {
    let place = log_lines::place_of(b"contains contains_range touches length overlap", name);
    match place {
        0..=2 => test(to, place, line)?,
        3 => length(to, line)?,
        4 => overlap(to, line)?,
        _ => return Ok(false),
    }
    Ok(true)
}
