// The window of lost counts that stands beside the session: what a call does to it. It has its full length, and of such a window no call is refused.
use export_record::{Record, SessionReply};
use log_calls::CallName;

// The window behind an accepted call. A new session, a new link, no link at all and a session that was saved have no
// deltas yet.
fn accepted(name: CallName, window: &mut [u8]) {
    if !matches!(name, CallName::Response) {
        let _ = churn::clear(window);
    }
}

// The window with the count of the delta at the front of the output.
fn push(out: &[u8], window: &mut [u8]) {
    let _ = churn::push(window, log_lists::lost_count(out));
}

// How many pushes of the queue the reader that is furthest has drained.
fn furthest(r: Record) -> usize {
    r.drain_positions.into_iter().fold(0, |most, n| most.max(n))
}

// The window behind a replay: its count goes into it once, when the first reader is handed it.
fn replayed(before: Record, next: Record, out: &[u8], window: &mut [u8]) {
    if furthest(before) < furthest(next) {
        push(out, window);
    }
}

// The window behind a call: the count of a delta goes into it, which stands at the front of the output.
pub fn after(name: CallName, before: Record, changed: SessionReply, out: &[u8], window: &mut [u8]) {
    match changed.reply.answer {
        export_reply::DELTA => push(out, window),
        export_reply::REPLAY => replayed(before, changed.state, out, window),
        export_reply::ACCEPTED => accepted(name, window),
        _ => {}
    }
}
