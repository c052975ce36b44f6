// Apply, join and the wire writer.
ghost use Rattle.std.specs.Prelude.{◌≡◌};
ghost use Rattle.packed_apply.specs.ApplyOutcome.{apply_outcome};
ghost use Rattle.packed_join.specs.JoinOutcome.{join_outcome};
ghost use Rattle.writer.specs.Write.{write_outcome};
ghost use Rattle.export.specs.Exports.{write_reply, write_of};

use export_reply::Reply;
use refusal::Refusal;

pub fn write_reply(a: Result<usize, Refusal>) -> Reply
    ensures { result ≡ write_reply a }
{
    match a {
        Ok(n) => export_reply::one(export_reply::WRITTEN, n as u64),
        Err(x) => export_reply::refused(x),
    }
}

// The list that a delta makes of a list.
#[unsafe(no_mangle)]
pub extern "C" fn cuddrewyn_apply(assignment: &[u8], delta: &[u8], out: &mut [u8]) -> Reply
    ensures { record { reply = result; out = out.new }
        ≡ write_of (apply_outcome assignment.now delta.now out.old) }
{
    write_reply(packed_apply::apply(assignment, delta, out))
}

// The delta that has the effect of d, then e.
#[unsafe(no_mangle)]
pub extern "C" fn cuddrewyn_join(d: &[u8], e: &[u8], out: &mut [u8]) -> Reply
    ensures { record { reply = result; out = out.new }
        ≡ write_of (join_outcome d.now e.now out.old) }
{
    write_reply(packed_join::join(d, e, out))
}

// A list as the message ScalableConsumerAssignment: `to_pb`.
#[unsafe(no_mangle)]
pub extern "C" fn cuddrewyn_to_pb(assignment: &[u8], parent: &[u8], out: &mut [u8]) -> Reply
    ensures { record { reply = result; out = out.new }
        ≡ write_of (write_outcome assignment.now parent.now out.old) }
{
    write_reply(writer::to_pb(assignment, parent, out))
}
