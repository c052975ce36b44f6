// The calls of a line that was tested, run on the session.
use export_record::{Record, SessionReply};
use log_calls::CallName;
use topic_types::{ControllerIncarnation, ScalableConsumerType};

fn consumer_type(word: &[u8]) -> ScalableConsumerType {
    if slice::same(word, b"checkpoint") {
        ScalableConsumerType::Checkpoint
    } else {
        ScalableConsumerType::Stream
    }
}

// The session behind an open; one that is refused leaves it as it was.
fn opened(r: Record, x: SessionReply) -> SessionReply {
    if x.reply.answer == export_reply::REFUSED {
        SessionReply { state: r, ..x }
    } else {
        x
    }
}

// open CONSUMER INCARNATION TOPIC SUBSCRIPTION NAME KIND
fn open(line: &[u8], store: &mut [u8]) -> SessionReply {
    let mut topic = log_lines::large_buffer();
    let mut subscription = log_lines::large_buffer();
    let mut name = log_lines::large_buffer();
    let n = log_lines::bytes_at(line, 3, &mut topic);
    let m = log_lines::bytes_at(line, 4, &mut subscription);
    let l = log_lines::bytes_at(line, 5, &mut name);
    let opened = session_open::open(
        log_lines::number_at(line, 1),
        ControllerIncarnation(log_lines::number_at(line, 2)),
        &topic[..n],
        &subscription[..m],
        &name[..l],
        consumer_type(log_lines::word(line, 6)),
        store,
    );
    export_record::open_reply(opened.answer, opened.next)
}

// The session that was saved; a refusal leaves the one that is open.
fn restored(r: Record, bytes: &[u8], store: &mut [u8]) -> SessionReply {
    let restored = session_saved::restore(bytes, store);
    opened(r, export_record::open_reply(restored.answer, restored.next))
}

// The call of a line, by the function to which the exported call hands on. Its message is that of an update or a
// response; `kept` is what was saved last.
pub fn call(
    r: Record,
    name: CallName,
    line: &[u8],
    message: &[u8],
    store: &mut [u8],
    kept: &[u8],
    out: &mut [u8],
) -> SessionReply {
    let n = log_lines::number_at(line, 1);
    match name {
        CallName::Open => opened(r, open(line, store)),
        CallName::Update => export_session::updated(r, store, message, n, out),
        CallName::Response => export_session::responded(r, store, message, n),
        CallName::Drain => export_session::drained(r, store, n as usize, out),
        CallName::Begin => export_session::begun(r, n),
        CallName::Invalidate => export_session::invalidated(r),
        CallName::Restore => restored(r, kept, store),
    }
}
