// A session saved as bytes, and taken back.
ghost use Rattle.std.specs.Prelude.{◌≡◌};
ghost use Rattle.export_record.specs.Replies.{record_of};
ghost use Rattle.export_record.specs.Exported.{open_of};
ghost use Rattle.session_saved.specs.Saved.{save_outcome, restore_outcome};
ghost use Rattle.export.specs.Exports.{write_of};

use crate::list_calls::write_reply;
use export_record::{Record, SessionReply, open_reply, record_of};
use export_reply::Reply;

// Writes record and what is in use of the store to the output, with a length and a checksum.
#[unsafe(no_mangle)]
pub extern "C" fn cuddrewyn_save(r: Record, store: &[u8], out: &mut [u8]) -> Reply
    ensures { record { reply = result; out = out.new }
        ≡ write_of (save_outcome (record_of r) store.now out.old) }
{
    write_reply(session_saved::save(record_of(r), store, out))
}

// Takes a session back from the bytes that a save wrote.
#[unsafe(no_mangle)]
pub extern "C" fn cuddrewyn_restore(bytes: &[u8], store: &mut [u8]) -> SessionReply
    ensures { record { call = result; store = store.new }
        ≡ open_of (restore_outcome bytes.now store.old) }
{
    let restored = session_saved::restore(bytes, store);
    open_reply(restored.answer, restored.next)
}
