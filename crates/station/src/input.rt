// The lines of the input, one after the other, and the sum at the end.
//
// The input is read into a buffer. The lines that are whole are run, and what is left moves to the front. A line that
// fills the buffer is dropped as it comes, and is damaged at its end.
ghost use Rattle.std.specs.Prelude.{◌+◌, ◌<◌, ◌≤◌, length, IfOk};

use crate::arguments::Options;
use crate::step;
use crate::step::Run;
use std::io;
use std::io::{Read, Write};

// The run with so many bytes left to be run.
fn with_waiting(run: Run, n: usize) -> Run {
    Run { waiting: n, ..run }
}

// Runs the lines that are whole; the bytes behind them wait.
fn run_lines<W: Write>(
    to: &mut W,
    options: Options,
    run: Run,
    lines_read: &[u8],
    store: &mut [u8],
    window: &mut [u8],
    kept: &mut [u8],
) -> io::Result<Run> {
    let mut next = run;
    let mut at: usize = 0;
    while at < lines_read.len() {
        let end = log_lines::line_end(lines_read, at);
        if lines_read.len() <= end {
            return Ok(with_waiting(next, lines_read.len() - at));
        }
        next = step::run_line(to, options, next, &lines_read[at..end], store, window, kept)?;
        if next.is_over {
            return Ok(next);
        }
        at = end + 1;
    }
    Ok(with_waiting(next, 0))
}

// Moves the n bytes from a place on to the front.
fn move_down(buffer: &mut [u8], from: usize, n: usize)
    requires { from + n ≤ length buffer.old }
{
    buffer.copy_within(from..from + n, 0);
}

// Reads once, behind the first n bytes, and answers how many came: none at the end of the input.
fn read_behind<R: Read>(from: &mut R, buffer: &mut [u8], n: usize) -> io::Result<usize>
    requires { n ≤ length buffer.old }
    ensures { IfOk result (λ got. n + got ≤ length buffer.old) }
{
    from.read(&mut buffer[n..])
}

// What is to be run: so many bytes at the front of the buffer, with which the input ends or not.
#[derive(Clone, Copy)]
struct Filled {
    end: usize,
    is_last: bool,
}

// Reads once, behind the first n bytes. At the end of the input it ends the last line, which no line break ends: there
// is one where bytes wait, or where its front was dropped.
fn fill<R: Read>(from: &mut R, buffer: &mut [u8], n: usize, is_cut: bool) -> io::Result<Filled>
    requires { n < length buffer.old }
    ensures { IfOk result (λ f. f.end ≤ length buffer.old) }
{
    let got = read_behind(from, buffer, n)?;
    if 0 < got {
        return Ok(Filled {
            end: n + got,
            is_last: false,
        });
    }
    if n == 0 && !is_cut {
        return Ok(Filled {
            end: 0,
            is_last: true,
        });
    }
    buffer[n] = b'\n';
    Ok(Filled {
        end: n + 1,
        is_last: true,
    })
}

// Reads once, behind the bytes that wait, and runs the lines that are whole. Where the bytes that wait fill the buffer
// they are dropped.
fn read_and_run<R: Read, W: Write>(
    from: &mut R,
    to: &mut W,
    options: Options,
    run: Run,
    buffer: &mut [u8],
    store: &mut [u8],
    window: &mut [u8],
    kept: &mut [u8],
) -> io::Result<Run> {
    if buffer.len() <= run.waiting {
        return Ok(Run {
            is_cut: true,
            waiting: 0,
            ..run
        });
    }
    let Filled { end, is_last } = fill(from, buffer, run.waiting, run.is_cut)?;
    let next = run_lines(to, options, run, &buffer[..end], store, window, kept)?;
    let left = next.waiting;
    if left <= end {
        move_down(buffer, end - left, left);
    }
    Ok(Run {
        is_over: next.is_over || is_last,
        ..next
    })
}

// A proved loop has to end, and nothing says that the input does: it has a number of turns that no run uses up. The
// answers to what was read are written out before more is read.
fn run_input<R: Read, W: Write>(
    from: &mut R,
    to: &mut W,
    options: Options,
    buffer: &mut [u8],
    store: &mut [u8],
    window: &mut [u8],
    kept: &mut [u8],
) -> io::Result<Run> {
    let mut run = step::at_start();
    for _ in 0..u64::MAX {
        run = read_and_run(from, to, options, run, buffer, store, window, kept)?;
        to.flush()?;
        if run.is_over {
            return Ok(run);
        }
    }
    Ok(run)
}

// Runs the log that is read by a buffer on a store, with a window of lost counts and a buffer for a saved session beside
// it.
pub fn run_log<R: Read, W: Write>(
    from: &mut R,
    to: &mut W,
    options: Options,
    buffer: &mut [u8],
    store: &mut [u8],
    window: &mut [u8],
    kept: &mut [u8],
) -> io::Result<()> {
    let run = run_input(from, to, options, buffer, store, window, kept)?;
    step::show_sum(to, run)
}
