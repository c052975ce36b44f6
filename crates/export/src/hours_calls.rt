// Pass hours and terms.
ghost use Rattle.std.specs.Prelude.{◌≡◌};
ghost use Rattle.hours.specs.Hours.{open_answer};
ghost use Rattle.export.specs.Exports.{hours_reply, EarliestReply};

use crate::range_calls::answered_reply;
use export_reply::Reply;

// Whether a second is open by the contract.
#[unsafe(no_mangle)]
pub extern "C" fn cuddrewyn_is_open(contract: &[u8], second: u64) -> Reply
    ensures { result ≡ hours_reply (open_answer contract.now second) }
{
    answered_reply(hours::is_open(contract, second))
}

// The earliest open second not before the one given; no if there is none.
#[unsafe(no_mangle)]
pub extern "C" fn cuddrewyn_earliest_open(contract: &[u8], second: u64) -> Reply
    ensures { EarliestReply contract.now second result }
{
    match hours::earliest_open(contract, second) {
        Ok(Some(s)) => export_reply::one(export_reply::FOUND, s),
        Ok(None) => export_reply::plain(export_reply::NO),
        Err(x) => export_reply::refused(x),
    }
}
