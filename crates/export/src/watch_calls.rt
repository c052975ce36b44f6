// The topics watch.
ghost use Rattle.std.specs.Prelude.{◌≡◌};
ghost use Rattle.wire_readers.specs.Places.{watch_place};
ghost use Rattle.wire_values.specs.Places.{PlaceIs};
ghost use Rattle.watch.specs.Watch.{handle_update};
ghost use Rattle.export.specs.Exports.{watch_reply, watch_of};

use crate::Part;
use crate::session_calls::last_part;
use export_reply::Reply;
use refusal::Refusal;

fn watch_reply(a: Result<(usize, usize), Refusal>) -> Reply
    ensures { result ≡ watch_reply a }
{
    match a {
        Ok((set, out)) => export_reply::two(export_reply::WRITTEN, set as u64, out as u64),
        Err(x) => export_reply::refused(x),
    }
}

// An update of a set of topics: `ScalableTopicsWatch::handle_update`.
#[unsafe(no_mangle)]
pub extern "C" fn cuddrewyn_watch(
    watch_id: u64,
    buffer: &mut [u8],
    used: usize,
    message: &[u8],
    out: &mut [u8],
) -> Reply
    ensures { record { reply = result; buffer = buffer.new; out = out.new }
        ≡ watch_of (handle_update buffer.old out.old watch_id used message.now) }
{
    watch_reply(watch::handle_update(watch_id, buffer, used, message, out))
}

// Where the broker's text stands in an update that was refused with 16.
#[unsafe(no_mangle)]
pub extern "C" fn cuddrewyn_watch_text(message: &[u8]) -> Part
    ensures { PlaceIs message.now (watch_place message.now) result.start result.length }
{
    last_part(message, 5)
}
