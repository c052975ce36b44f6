// The usual form of a message told quickly: its fields in the order of their numbers, with one-byte keys, and no others. That is what
// writers write.
//
// A ordered message has no fault, whatever it is nested in: each of its fields comes once, so that no other part can lend it one that it lacks. A message that
// is not ordered may have none all the same: `wire_messages` decides.
#![tactic(auto)]

ghost use Rattle.std.specs.Prelude.{◌≡◌, true, ℕ, ◌<◌};
ghost use Rattle.wire_schema.specs.FirstFault.{first_fault, Sound};
ghost use Rattle.wire_ordered.specs.Ordered.{NumberField, NumberAtIs, PartIs, Passed, Carrier};

use wire::{Body, WireType};
use wire_schema::MessageKind;

// The number of field f at a place, and the place behind the field; None where it does not stand there.
pub fn number_at(f: u8, s: &[u8], at: usize) -> Option<(u64, usize)>
    requires { (0 < f) × (f < 16) }
    ensures { NumberAtIs f s.now at result }
{
    if s.len() <= at {
        return None;
    }
    if s[at] != 8 * f {
        return None;
    }
    let from = at + 1;
    let (v, n) = wire::read_short_varint(&s[from..])?;
    Some((v, from + n))
}

// The place behind field f, a number, at a place; 0 where it does not stand there.
fn number_end(f: u8, s: &[u8], at: usize) -> usize
    requires { (0 < f) × (f < 16) }
    ensures { 0 < result → NumberField f s.now at result }
{
    match number_at(f, s, at) {
        Some((_, to)) => to,
        None => 0,
    }
}

// Where the part of field f at a place starts and where it ends; None where it does not stand there.
pub fn part_at(f: u8, s: &[u8], at: usize) -> Option<(usize, usize)>
    requires { (0 < f) × (f < 16) }
    ensures { PartIs f s.now at result }
{
    if s.len() <= at {
        return None;
    }
    if s[at] != 8 * f + 2 {
        return None;
    }
    let behind = at + 1;
    let Some(Body::Part(n, len)) = wire::read_body(WireType::Len, &s[behind..]) else {
        return None;
    };
    let from = behind + n;
    Some((from, from + len))
}

// Fields 1 and 2, and nothing else.
fn ordered_range(s: &[u8]) -> bool
    ensures { result ≡ true → (d : ℕ) → Sound d MessageKind.IntRange s.now }
{
    let start = number_end(1, s, 0);
    if start == 0 {
        return false;
    }
    let end = number_end(2, s, start);
    if end == 0 {
        return false;
    }
    end == s.len()
}

// The place behind fields 1 to 4 of a segment; 0 where they do not stand at its front.
fn segment_end(s: &[u8]) -> usize
    ensures { 0 < result → Passed MessageKind.ScalableAssignedSegment MessageKind.IntRange 5 s.now result }
{
    let id = number_end(1, s, 0);
    if id == 0 {
        return 0;
    }
    let start = number_end(2, s, id);
    if start == 0 {
        return 0;
    }
    let end = number_end(3, s, start);
    if end == 0 {
        return 0;
    }
    let Some((from, to)) = part_at(4, s, end) else {
        return 0;
    };
    if utf8::is_utf8(&s[from..to]) { to } else { 0 }
}

// Fields 1 to 4, then ordered ranges as field 5, and nothing else.
fn ordered_segment(s: &[u8]) -> bool
    ensures { result ≡ true → (d : ℕ) → Sound d MessageKind.ScalableAssignedSegment s.now }
{
    let mut at = segment_end(s);
    if at == 0 {
        return false;
    }
    while at < s.len() {
        let Some((from, to)) = part_at(5, s, at) else {
            return false;
        };
        if !ordered_range(&s[from..to]) {
            return false;
        }
        at = to;
    }
    true
}

// Field 1, then ordered segments as field 2, and nothing else.
fn ordered_assignment(s: &[u8]) -> bool
    ensures { result ≡ true → (d : ℕ) → Sound d MessageKind.ScalableConsumerAssignment s.now }
{
    let mut at = number_end(1, s, 0);
    if at == 0 {
        return false;
    }
    while at < s.len() {
        let Some((from, to)) = part_at(2, s, at) else {
            return false;
        };
        if !ordered_segment(&s[from..to]) {
            return false;
        }
        at = to;
    }
    true
}

// The message is told to be ordered: an assignment, a segment or a range.
pub fn is_ordered(kind: MessageKind, s: &[u8]) -> bool
    ensures { result ≡ true → (d : ℕ) → Sound d kind s.now }
{
    match kind {
        MessageKind::ScalableConsumerAssignment => ordered_assignment(s),
        MessageKind::ScalableAssignedSegment => ordered_segment(s),
        MessageKind::IntRange => ordered_range(s),
        _ => false,
    }
}

// Field 1, then a ordered assignment as field n, and nothing else.
fn ordered_carrier(s: &[u8], n: u8) -> bool
    requires { (0 < n) × (n < 16) }
    ensures { result ≡ true → Carrier n s.now }
{
    let at = number_end(1, s, 0);
    if at == 0 {
        return false;
    }
    let Some((from, to)) = part_at(n, s, at) else {
        return false;
    };
    if to < s.len() {
        return false;
    }
    ordered_assignment(&s[from..to])
}

// The message is told to be ordered: one that holds an assignment.
pub fn is_ordered_command(kind: MessageKind, s: &[u8]) -> bool
    ensures { result ≡ true → first_fault kind s.now ≡ (Ok record {}) }
{
    match kind {
        MessageKind::CommandScalableTopicAssignmentUpdate => ordered_carrier(s, 2),
        MessageKind::CommandScalableTopicSubscribeResponse => ordered_carrier(s, 4),
        _ => false,
    }
}
