// One field of a message: its key, its type, then what stands behind the key.
//
// A message that stands in a field is not read here: the answer says where it is.
#![tactic(auto)]

ghost use Rattle.std.specs.Prelude.{◌≡◌, ◌+◌, ◌<◌, ◌^◌};
ghost use Rattle.wire.specs.Field.{key_read, body_of};
ghost use Rattle.wire_field_step.specs.Steps.{field_head, value_step, part_step, refused_with, field_of};

use refusal::Refusal;
use wire::{Body, WireType};
use wire_schema::{MessageKind, ValueKind};

// What stands behind a key: passed over in this many bytes, or a message that starts at a place and has a length.
#[derive(Clone, Copy)]
pub enum Step {
    Next(usize),
    Inner(MessageKind, usize, usize),
}

// A field: the length of its key, and what stands behind the key.
#[derive(Clone, Copy)]
pub struct FieldStep {
    pub size: usize,
    pub step: Result<Step, Refusal>,
}

// The key at the front of a part of a message of the kind: its length, the field's type and what it holds.
fn read_head(kind: MessageKind, s: &[u8]) -> Result<(usize, WireType, ValueKind), Refusal>
    ensures { result ≡ field_head kind (key_read s.now) }
{
    let (f, w, n) = wire::read_key(s).ok_or(Refusal::InvalidWireFormat)?;
    let v = wire_schema::field_value(kind, f);
    if wire_schema::fits_wire(v, w) {
        Ok((n, w, v))
    } else {
        Err(Refusal::WrongWireType)
    }
}

// The part p of len bytes, behind a length of n bytes.
fn part_step(v: ValueKind, n: usize, len: usize, p: &[u8]) -> Result<Step, Refusal>
    requires { n + len < 2 ^ 64 }
    ensures { result ≡ part_step v n len p.now }
{
    match v {
        ValueKind::Any => Ok(Step::Next(n + len)),
        ValueKind::Number => Ok(Step::Next(n + len)),
        ValueKind::Text => {
            if utf8::is_utf8(p) {
                Ok(Step::Next(n + len))
            } else {
                Err(Refusal::InvalidUtf8)
            }
        }
        ValueKind::Message(k) => Ok(Step::Inner(k, n, len)),
    }
}

// What stands behind a key of that type, at the front of a part.
fn value_step(v: ValueKind, w: WireType, s: &[u8]) -> Result<Step, Refusal>
    ensures { result ≡ value_step v (body_of w s.now) s.now }
{
    let body = wire::read_body(w, s).ok_or(Refusal::InvalidWireFormat)?;
    match body {
        Body::Number(_, n) => Ok(Step::Next(n)),
        Body::Fixed(n) => Ok(Step::Next(n)),
        Body::Part(n, len) => part_step(v, n, len, &s[n..n + len]),
    }
}

fn refused(x: Refusal) -> FieldStep
    ensures { result ≡ refused_with x }
{
    FieldStep {
        size: 0,
        step: Err(x),
    }
}

// The field at the front of a part of a message of the kind.
pub fn read_field(kind: MessageKind, s: &[u8]) -> FieldStep
    ensures { result ≡ field_of (field_head kind (key_read s.now)) s.now }
{
    match read_head(kind, s) {
        Err(x) => refused(x),
        Ok((n, w, v)) => {
            let step = value_step(v, w, &s[n..]);
            FieldStep { size: n, step }
        }
    }
}
