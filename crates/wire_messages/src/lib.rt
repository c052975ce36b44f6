// One validating scan for the eight messages, and behind it the look for required fields.
//
// `first_fault` reads a message by the table of its fields and gives the refusal of its first fault: 3, 4 and 7 in byte order, then 6 of the message as it is when
// its parts are merged. It takes a part of any length and content. A message in its usual form is gone over once.
// What a message's fields hold is read by other crates, which ask nothing of this pass.
#![tactic(auto)]

ghost use Rattle.std.specs.Prelude.{◌≡◌};
ghost use Rattle.wire_schema.specs.FirstFault.{fault_within, first_fault};

use refusal::Refusal;
use wire_field_step::Step;
pub use wire_schema::MessageKind;

// The first 3, 4 or 7 of a message in byte order, where messages are nested at most depth deep. One in its usual form is told first: it has none.
fn scan(depth: usize, kind: MessageKind, s: &[u8]) -> Result<(), Refusal>
    ensures { result ≡ fault_within depth kind s.now }
{
    if wire_ordered::is_ordered(kind, s) {
        return Ok(());
    }
    if depth == 0 {
        return Ok(());
    }
    let mut at: usize = 0;
    while at < s.len() {
        let field = wire_field_step::read_field(kind, &s[at..]);
        at += field.size;
        match field.step? {
            Step::Next(m) => at += m,
            Step::Inner(k, m, len) => {
                let from = at + m;
                at = from + len;
                scan(depth - 1, k, &s[from..at])?;
            }
        }
    }
    Ok(())
}

// The first fault of a message, or none.
pub fn first_fault(kind: MessageKind, s: &[u8]) -> Result<(), Refusal>
    ensures { result ≡ first_fault kind s.now }
{
    if wire_ordered::is_ordered_command(kind, s) {
        return Ok(());
    }
    let depth = wire_schema::nesting(kind);
    scan(depth, kind, s)?;
    if wire_required::is_complete(kind, s) {
        Ok(())
    } else {
        Err(Refusal::MissingField)
    }
}
