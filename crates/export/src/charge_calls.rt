// The charge of a holding.
ghost use Rattle.std.specs.Prelude.{◌≡◌};
ghost use Rattle.charge.specs.Charge.{charge_of};
ghost use Rattle.export.specs.Exports.{charge_reply};

use export_reply::Reply;

// The charge of one holding of the segment whose packed record is lent, and the remainder for its next one.
#[unsafe(no_mangle)]
pub extern "C" fn cuddrewyn_charge(segment: &[u8], seconds: u64, rate: u64, remainder: u64) -> Reply
    ensures { result ≡ charge_reply (charge_of segment.now seconds rate remainder) }
{
    match charge::charge(segment, seconds, rate, remainder) {
        Ok((amount, next)) => export_reply::two(export_reply::FOUND, amount, next),
        Err(x) => export_reply::refused(x),
    }
}
