// A line of the log as one step of a run: the call run on the session, its answer shown, the lines counted.
//
// The functions promise only what keeps them in bounds: what is read and what is written is not proved.
use crate::arguments::Options;
use crate::{calls, report, window};
use export_record::{Record, SessionReply};
use export_reply::Reply;
use log_calls::{CallName, Line, Question};
use log_text::{decimal, labelled, newline, space, text};
use std::io;
use std::io::Write;

// What a run has come to.
#[derive(Clone, Copy)]
pub struct Run {
    // The number of the line.
    pub line: u64,
    pub is_open: bool,
    // The session's record, once one is open.
    pub record: Record,
    pub accepted: u64,
    pub refused: u64,
    pub damaged: u64,
    // The next line is longer than the buffer, and was dropped but for its end.
    pub is_cut: bool,
    // How many bytes are read that are no whole line yet.
    pub waiting: usize,
    pub is_over: bool,
    // How many bytes the session has that was saved last: none where none was.
    pub kept: usize,
}

pub fn at_start() -> Run {
    let record = Record {
        consumer_id: 0,
        incarnation: 0,
        epoch_floor: 0,
        queue_count: 0,
        drain_positions: [0; 8],
        has_floor: 0,
        registered: 0,
        invalidated: 0,
    };
    Run {
        line: 0,
        is_open: false,
        record,
        accepted: 0,
        refused: 0,
        damaged: 0,
        is_cut: false,
        waiting: 0,
        is_over: false,
        kept: 0,
    }
}

// The run with one line more that was accepted or refused.
fn counted(run: Run, is_refused: bool) -> Run {
    if is_refused {
        Run {
            refused: run.refused.saturating_add(1),
            ..run
        }
    } else {
        Run {
            accepted: run.accepted.saturating_add(1),
            ..run
        }
    }
}

// The run behind a call. An open that is refused before any was accepted leaves no session.
fn settled(run: Run, changed: SessionReply) -> Run {
    let is_refused = changed.reply.answer == export_reply::REFUSED;
    let next = Run {
        record: changed.state,
        is_open: run.is_open || !is_refused,
        ..run
    };
    counted(next, is_refused)
}

// The rows below a call that the options ask for: the record, then the lists.
fn show_details<W: Write>(
    to: &mut W,
    options: Options,
    name: CallName,
    run: Run,
    told: Reply,
    store: &[u8],
    window: &[u8],
    out: &[u8],
) -> io::Result<()> {
    let record = run.record;
    if options.state {
        if run.is_open {
            report::show_state(to, record, window)?;
        } else {
            text(to, b"  state none\n")?;
        }
    }
    if options.lists {
        report::show_lists(to, name, told, record.registered != 0, store, out)?;
    }
    Ok(())
}

// Shows what a call gave, and the rows below it; the run behind it.
fn show_call<W: Write>(
    to: &mut W,
    options: Options,
    name: CallName,
    run: Run,
    changed: SessionReply,
    message: &[u8],
    store: &[u8],
    window: &[u8],
    out: &[u8],
) -> io::Result<Run> {
    let told = changed.reply;
    report::show_answer(to, name, told, message, store, out)?;
    newline(to)?;
    let next = settled(run, changed);
    show_details(to, options, name, next, told, store, window, out)?;
    Ok(next)
}

// Runs a call and shows what it gives; of an update or a response with its message.
fn run_message<W: Write>(
    to: &mut W,
    options: Options,
    run: Run,
    name: CallName,
    line: &[u8],
    message: &[u8],
    store: &mut [u8],
    window: &mut [u8],
    kept: &[u8],
) -> io::Result<Run> {
    let mut out = [0u8; packed_diff::LONGEST];
    let record = run.record;
    let changed = calls::call(record, name, line, message, store, kept, &mut out);
    window::after(name, record, changed, &out, window);
    show_call(
        to, options, name, run, changed, message, store, window, &out,
    )
}

// Runs a call. Its third word stands for the message, where it has one.
fn run_call<W: Write>(
    to: &mut W,
    options: Options,
    run: Run,
    name: CallName,
    line: &[u8],
    store: &mut [u8],
    window: &mut [u8],
    kept: &[u8],
) -> io::Result<Run> {
    let mut message = log_lines::large_buffer();
    let n = log_lines::bytes_at(line, 2, &mut message);
    run_message(
        to,
        options,
        run,
        name,
        line,
        &message[..n],
        store,
        window,
        front(kept, run.kept),
    )
}

// Saves the session, in place of the one that was saved before.
fn run_save<W: Write>(to: &mut W, run: Run, store: &[u8], kept: &mut [u8]) -> io::Result<Run> {
    let record = run.record;
    match session_saved::save(export_record::record_of(record), store, kept) {
        Ok(n) => {
            labelled(to, b"saved ", n as u64)?;
            newline(to)?;
            Ok(counted(Run { kept: n, ..run }, false))
        }
        Err(x) => {
            log_text::refused(to, x)?;
            newline(to)?;
            Ok(counted(run, true))
        }
    }
}

// The first n bytes, or all where there are fewer.
fn front(s: &[u8], n: usize) -> &[u8] {
    if n <= s.len() { &s[..n] } else { s }
}

// Shows the answer to a question. Nothing is changed but the counts.
fn run_question<W: Write>(
    to: &mut W,
    run: Run,
    question: Question,
    line: &[u8],
    store: &[u8],
    window: &[u8],
) -> io::Result<Run> {
    let record = run.record;
    let list = report::held(record.registered != 0, store);
    let is_refused = log_questions::ask(to, question, line, list, window)?;
    newline(to)?;
    Ok(counted(run, is_refused))
}

// The run behind a damaged line.
fn with_damaged(options: Options, run: Run) -> Run {
    Run {
        damaged: run.damaged.saturating_add(1),
        is_over: run.is_over || options.stop,
        ..run
    }
}

// The line holds no call.
fn is_passed_over(line: &[u8]) -> bool {
    line.is_empty() || slice::starts_with(line, b"#")
}

// The line asks for a session that is open.
fn needs_session(tested: Line) -> bool {
    match tested {
        Line::Call(name) => !matches!(name, CallName::Open | CallName::Restore),
        Line::Question(question) => matches!(question, Question::Segment | Question::Key),
        Line::Save => true,
    }
}

// Runs a line that was tested, behind its number and its first word, the call's name.
fn run_tested<W: Write>(
    to: &mut W,
    options: Options,
    run: Run,
    tested: Line,
    line: &[u8],
    store: &mut [u8],
    window: &mut [u8],
    kept: &mut [u8],
) -> io::Result<Run> {
    decimal(to, run.line)?;
    space(to)?;
    text(to, log_lines::word(line, 0))?;
    space(to)?;
    match tested {
        Line::Question(question) => run_question(to, run, question, line, store, window),
        Line::Save => run_save(to, run, store, kept),
        Line::Call(name) => run_call(to, options, run, name, line, store, window, kept),
    }
}

// Runs a line, and shows what comes of it.
pub fn run_line<W: Write>(
    to: &mut W,
    options: Options,
    run: Run,
    line: &[u8],
    store: &mut [u8],
    window: &mut [u8],
    kept: &mut [u8],
) -> io::Result<Run> {
    let next = Run {
        line: run.line.saturating_add(1),
        is_cut: false,
        ..run
    };
    if run.is_cut {
        log_calls::damaged(to, next.line, b"too long")?;
        return Ok(with_damaged(options, next));
    }
    if is_passed_over(line) {
        return Ok(next);
    }
    let Some(tested) = log_calls::tested(to, next.line, line)? else {
        return Ok(with_damaged(options, next));
    };
    if needs_session(tested) && !next.is_open {
        log_calls::damaged(to, next.line, b"no session is open")?;
        return Ok(with_damaged(options, next));
    }
    run_tested(to, options, next, tested, line, store, window, kept)
}

// `C calls: A accepted, R refused; D damaged lines`
pub fn show_sum<W: Write>(to: &mut W, run: Run) -> io::Result<()> {
    decimal(to, run.accepted.wrapping_add(run.refused))?;
    labelled(to, b" calls: ", run.accepted)?;
    labelled(to, b" accepted, ", run.refused)?;
    labelled(to, b" refused; ", run.damaged)?;
    text(to, b" damaged lines\n")
}
