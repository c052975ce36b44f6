// What stands behind a call's name: its answer, the session's record, what changed, and the list that is held.
use export_record::Record;
use export_reply::Reply;
use log_calls::CallName;
use log_text::{decimal, labelled, newline, quoted, space, text};
use packed::SLOT;
use std::io;
use std::io::Write;

// The slot of the baseline.
fn baseline(store: &[u8]) -> &[u8] {
    if session_store::MIN_STORE <= store.len() {
        return &store[SLOT..2 * SLOT];
    }
    &store[..0]
}

// The slot of the list while registered, else nothing.
pub fn held(is_registered: bool, store: &[u8]) -> &[u8] {
    if is_registered && session_store::MIN_STORE <= store.len() {
        return &store[2 * SLOT..3 * SLOT];
    }
    &store[..0]
}

// The broker's text in the message of a response.
fn show_broker_text<W: Write>(to: &mut W, message: &[u8], store: &[u8]) -> io::Result<()> {
    text(to, b" text ")?;
    quoted(to, session_response::broker_text(message, store))
}

// A refusal; of a broker's, 16, the text too.
fn show_refused<W: Write>(to: &mut W, r: Reply, message: &[u8], store: &[u8]) -> io::Result<()> {
    log_text::refused_reply(to, r)?;
    if r.number == 16 {
        show_broker_text(to, message, store)?;
    }
    Ok(())
}

// A delta at the front of the output.
fn show_delta<W: Write>(to: &mut W, out: &[u8]) -> io::Result<()> {
    text(to, b"delta ")?;
    log_lists::delta_counts(to, out)
}

// The same of a push of the queue, with its place.
fn show_replay<W: Write>(to: &mut W, place: u64, out: &[u8]) -> io::Result<()> {
    labelled(to, b"replay at ", place)?;
    space(to)?;
    log_lists::delta_counts(to, out)
}

// `accepted`, and of a response the baseline that it gave.
fn show_accepted<W: Write>(to: &mut W, name: CallName, store: &[u8]) -> io::Result<()> {
    text(to, b"accepted")?;
    if let CallName::Response = name {
        text(to, b" baseline ")?;
        log_lists::list_counts(to, baseline(store))?;
    }
    Ok(())
}

// The answer; a delta stands at the front of the output.
pub fn show_answer<W: Write>(
    to: &mut W,
    name: CallName,
    r: Reply,
    message: &[u8],
    store: &[u8],
    out: &[u8],
) -> io::Result<()> {
    match r.answer {
        export_reply::REFUSED => show_refused(to, r, message, store),
        export_reply::ACCEPTED => show_accepted(to, name, store),
        export_reply::UNCHANGED => text(to, b"none"),
        export_reply::DELTA => show_delta(to, out),
        export_reply::REPLAY => show_replay(to, r.first, out),
        _ => Ok(()),
    }
}

fn show_flag<W: Write>(to: &mut W, label: &[u8], b: bool) -> io::Result<()> {
    text(to, label)?;
    if b { text(to, b"yes") } else { text(to, b"no") }
}

fn show_floor<W: Write>(to: &mut W, r: Record) -> io::Result<()> {
    if r.has_floor == 0 {
        text(to, b"none")
    } else {
        decimal(to, r.epoch_floor)
    }
}

// How many pushes of the queue each reader has drained.
fn show_drained<W: Write>(to: &mut W, r: Record) -> io::Result<()> {
    text(to, b" drained")?;
    for position in r.drain_positions {
        labelled(to, b" ", position as u64)?;
    }
    Ok(())
}

// The record of an open session, and the lost counts beside it.
pub fn show_state<W: Write>(to: &mut W, r: Record, window: &[u8]) -> io::Result<()> {
    labelled(to, b"  state incarnation ", r.incarnation)?;
    text(to, b" floor ")?;
    show_floor(to, r)?;
    show_flag(to, b" registered ", r.registered != 0)?;
    show_flag(to, b" invalidated ", r.invalidated != 0)?;
    labelled(to, b" queue ", r.queue_count as u64)?;
    show_drained(to, r)?;
    space(to)?;
    log_questions::churn(to, window)?;
    newline(to)
}

// The list that is held.
fn show_held<W: Write>(to: &mut W, is_registered: bool, store: &[u8]) -> io::Result<()> {
    if !is_registered {
        return text(to, b"  held none\n");
    }
    let list = held(true, store);
    text(to, b"  held ")?;
    log_lists::list_counts(to, list)?;
    newline(to)?;
    log_lists::list_rows(to, list, b"    ")
}

// The rows below an accepted call: the baseline of a response, and the list that is held, which was set anew.
fn show_set<W: Write>(
    to: &mut W,
    name: CallName,
    is_registered: bool,
    store: &[u8],
) -> io::Result<()> {
    if let CallName::Response = name {
        log_lists::list_rows(to, baseline(store), b"  baseline ")?;
    }
    show_held(to, is_registered, store)
}

// The lists below an answer: what a delta loses and gains, and what is held where it was set anew.
pub fn show_lists<W: Write>(
    to: &mut W,
    name: CallName,
    r: Reply,
    is_registered: bool,
    store: &[u8],
    out: &[u8],
) -> io::Result<()> {
    match r.answer {
        export_reply::DELTA => {
            log_lists::changes(to, out)?;
            show_held(to, is_registered, store)
        }
        export_reply::REPLAY => log_lists::changes(to, out),
        export_reply::ACCEPTED => show_set(to, name, is_registered, store),
        _ => Ok(()),
    }
}
