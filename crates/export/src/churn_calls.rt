// The window of lost counts: a count more, none any more, and how it stands.
ghost use Rattle.std.specs.Prelude.{◌≡◌};
ghost use Rattle.churn.specs.Churn.{push, clear, current};
ghost use Rattle.export.specs.Exports.{churn_reply, window_of};

use churn::Totals;
use export_reply::Reply;
use refusal::Refusal;

fn churn_reply(a: Result<Totals, Refusal>) -> Reply
    ensures { result ≡ churn_reply a }
{
    match a {
        Ok(t) => export_reply::two(export_reply::FOUND, t.sum, t.largest),
        Err(x) => export_reply::refused(x),
    }
}

// A delta's lost count goes into the window: sum and largest of the latest 256.
#[unsafe(no_mangle)]
pub extern "C" fn cuddrewyn_churn_push(window: &mut [u8], count: u64) -> Reply
    ensures { record { reply = result; window = window.new } ≡ window_of (push window.old count) }
{
    churn_reply(churn::push(window, count))
}

// The window has no counts any more.
#[unsafe(no_mangle)]
pub extern "C" fn cuddrewyn_churn_clear(window: &mut [u8]) -> Reply
    ensures { record { reply = result; window = window.new } ≡ window_of (clear window.old) }
{
    churn_reply(churn::clear(window))
}

// Sum and largest as they stand.
#[unsafe(no_mangle)]
pub extern "C" fn cuddrewyn_churn_current(window: &[u8]) -> Reply
    ensures { result ≡ churn_reply (current window.now) }
{
    churn_reply(churn::current(window))
}
