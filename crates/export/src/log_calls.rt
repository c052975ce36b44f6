// Attach logs.
ghost use Rattle.export.specs.Exports.{LogReply};

use crate::range_calls::answered_reply;
use export_reply::Reply;

// Whether a log is what deltas, packed one behind another, ask for.
#[unsafe(no_mangle)]
pub extern "C" fn cuddrewyn_check_log(deltas: &[u8], log: &[u8]) -> Reply
    ensures { LogReply deltas.now log.now result }
{
    answered_reply(attach_log::check(deltas, log))
}
