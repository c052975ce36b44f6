// The program's arguments.
use log_text::{quoted, text};
use std::env::{Env, FillError};
use std::io;
use std::io::Write;

// What the arguments ask of a run.
#[derive(Clone, Copy, Default)]
pub struct Options {
    // After each call: what changed, and the list that is held.
    pub lists: bool,
    // After each call: the session's record.
    pub state: bool,
    // The run ends at the first damaged line.
    pub stop: bool,
    // The help page and no run.
    pub help: bool,
    // An argument is no option, and was named on standard error.
    pub is_wrong: bool,
}

fn show_unknown<E: Write>(errors: &mut E, word: &[u8]) -> io::Result<()> {
    text(errors, b"unknown option ")?;
    quoted(errors, word)?;
    text(errors, b"; --help lists the options\n")
}

// The options with one more argument.
fn with<E: Write>(errors: &mut E, options: Options, word: &[u8]) -> io::Result<Options> {
    let next = match log_lines::place_of(b"--lists --state --stop --help", word) {
        0 => Options {
            lists: true,
            ..options
        },
        1 => Options {
            state: true,
            ..options
        },
        2 => Options {
            stop: true,
            ..options
        },
        3 => Options {
            help: true,
            ..options
        },
        _ => {
            show_unknown(errors, word)?;
            Options {
                is_wrong: true,
                ..options
            }
        }
    };
    Ok(next)
}

// The options with argument i; None where there is none. One that is longer than the buffer counts as unknown, by
// its first bytes.
fn with_argument<R: Env, E: Write>(
    rt: &R,
    errors: &mut E,
    options: Options,
    i: usize,
) -> io::Result<Option<Options>> {
    let mut word = log_lines::buffer();
    match rt.arg(i, &mut word) {
        Ok(n) => Ok(Some(with(errors, options, &word[..n])?)),
        Err(FillError::TooLong) => Ok(Some(with(errors, options, &word)?)),
        Err(FillError::NotPresent) => Ok(None),
    }
}

// The options that the program was started with.
pub fn given<R: Env, E: Write>(rt: &R, errors: &mut E) -> io::Result<Options> {
    let mut options = Options::default();
    for i in 1..usize::MAX {
        let Some(next) = with_argument(rt, errors, options, i)? else {
            return Ok(options);
        };
        options = next;
    }
    Ok(options)
}
