// The required fields of a message, looked for in the message as it is when its parts are merged.
//
// Everything is said of the message's row of fields and asks nothing of an earlier pass: see specs/Required of the crate schema. An assignment's fields are looked
// for in all its parts; a segment, and a bucket range, is looked at by itself. Each of these is gone over once.
#![tactic(auto)]

ghost use Rattle.std.specs.Prelude.{◌≡◌, true, cond, not, ◌&&◌, ◌||◌, eqb};
ghost use Rattle.wire.specs.Fields.{fields_of};
ghost use Rattle.wire_values.specs.Places.{front_of};
ghost use Rattle.wire_values.specs.Values.{numbers_of, parts_of, present, merged_fields};
ghost use Rattle.wire_schema.specs.Required.{all_complete, complete_within, is_complete};

use wire::Body;
use wire_schema::MessageKind;
use wire_values::Front;

// `wire_values::read_front` once more, inlined: the walks below call it for each field of a message that is not in the usual form.
#[inline(always)]
fn read_front(s: &[u8]) -> Option<Front>
    ensures { result ≡ front_of s.now }
{
    let (f, w, n) = wire::read_key(s)?;
    match wire::read_body(w, &s[n..])? {
        Body::Number(v, m) => Some(Front::Number(f, v, n + m)),
        Body::Part(m, len) => Some(Front::Part(f, n + m, len)),
        Body::Fixed(m) => Some(Front::Fixed(n + m)),
    }
}

fn both(a: bool, b: bool) -> bool
    ensures { result ≡ (a && b) }
{
    a && b
}

fn all_four(a: bool, b: bool, c: bool, d: bool) -> bool
    ensures { result ≡ (a && (b && (c && d))) }
{
    both(a, both(b, both(c, d)))
}

fn either(a: bool, b: bool) -> bool
    ensures { result ≡ (a || b) }
{
    a || b
}

// Whether field n holds a number.
fn has_number(s: &[u8], n: u64) -> bool
    ensures { result ≡ present (numbers_of n (fields_of s.now)) }
{
    wire_values::last_number(s, n).is_some()
}

fn range_complete(p: &[u8]) -> bool
    ensures { result ≡ complete_within 1 MessageKind.IntRange (fields_of p.now) }
{
    let mut start = false;
    let mut end = false;
    let mut at: usize = 0;
    while at < p.len() {
        match read_front(&p[at..]) {
            None => return both(start, end),
            Some(Front::Number(f, _, size)) => {
                start = either(start, f == 1);
                end = either(end, f == 2);
                at += size;
            }
            Some(Front::Part(_, from, len)) => {
                let begin = at + from;
                at = begin + len;
            }
            Some(Front::Fixed(size)) => at += size,
        }
    }
    both(start, end)
}

// The part p in field f of a segment: a bucket range, or nothing that has fields.
fn bucket_complete(f: u64, p: &[u8]) -> bool
    ensures { result ≡ cond (eqb f 5) (complete_within 1 MessageKind.IntRange (fields_of p.now)) true }
{
    if f == 5 { range_complete(p) } else { true }
}

fn segment_complete(s: &[u8]) -> bool
    ensures { result ≡ complete_within 2 MessageKind.ScalableAssignedSegment (fields_of s.now) }
{
    let mut id = false;
    let mut start = false;
    let mut end = false;
    let mut topic = false;
    let mut at: usize = 0;
    while at < s.len() {
        match read_front(&s[at..]) {
            None => return all_four(id, start, end, topic),
            Some(Front::Number(f, _, size)) => {
                id = either(id, f == 1);
                start = either(start, f == 2);
                end = either(end, f == 3);
                at += size;
            }
            Some(Front::Part(f, from, len)) => {
                let begin = at + from;
                at = begin + len;
                if !bucket_complete(f, &s[begin..at]) {
                    return false;
                }
                topic = either(topic, f == 4);
            }
            Some(Front::Fixed(size)) => at += size,
        }
    }
    all_four(id, start, end, topic)
}

// The part p in field f of an assignment: a segment, or nothing that has fields.
fn part_complete(f: u64, p: &[u8]) -> bool
    ensures { result ≡ cond (eqb f 2) (complete_within 2 MessageKind.ScalableAssignedSegment (fields_of p.now)) true }
{
    if f == 2 { segment_complete(p) } else { true }
}

// What has been found of an assignment: an epoch, and the required fields of each segment.
#[derive(Clone, Copy)]
struct Found {
    epoch: bool,
    segments: bool,
}

// The same with one more part of the assignment.
fn look(s: &[u8], before: Found) -> Found
    ensures { (result.epoch ≡ (before.epoch || present (numbers_of 1 (fields_of s.now))))
        × (result.segments ≡ (before.segments && all_complete (complete_within 2) MessageKind.ScalableAssignedSegment (parts_of 2 (fields_of s.now)))) }
{
    let mut epoch = before.epoch;
    let mut segments = before.segments;
    let mut at: usize = 0;
    while at < s.len() {
        match read_front(&s[at..]) {
            None => return Found { epoch, segments },
            Some(Front::Number(f, _, size)) => {
                epoch = either(epoch, f == 1);
                at += size;
            }
            Some(Front::Part(f, from, len)) => {
                let begin = at + from;
                at = begin + len;
                segments = both(segments, part_complete(f, &s[begin..at]));
            }
            Some(Front::Fixed(size)) => at += size,
        }
    }
    Found { epoch, segments }
}

fn list_complete(s: &[u8]) -> bool
    ensures { result ≡ complete_within 3 MessageKind.ScalableConsumerAssignment (fields_of s.now) }
{
    let whole = look(
        s,
        Found {
            epoch: false,
            segments: true,
        },
    );
    both(whole.epoch, whole.segments)
}

// The assignment in field n, merged from its parts.
fn assignment_complete(m: &[u8], n: u64) -> bool
    ensures { result ≡ is_complete MessageKind.ScalableConsumerAssignment (merged_fields n (fields_of m.now)) }
{
    let mut found = Found {
        epoch: false,
        segments: true,
    };
    let mut at: usize = 0;
    while let Some((start, _, end)) = wire_values::next_part(m, at, n) {
        found = look(&m[start..end], found);
        at = end;
    }
    both(found.epoch, found.segments)
}

fn update_complete(m: &[u8]) -> bool
    ensures { result ≡ is_complete MessageKind.CommandScalableTopicAssignmentUpdate (fields_of m.now) }
{
    let consumer = has_number(m, 1);
    let assignment = assignment_complete(m, 2);
    let there = wire_values::has_part(m, 2);
    both(consumer, both(assignment, there))
}

fn response_complete(m: &[u8]) -> bool
    ensures { result ≡ is_complete MessageKind.CommandScalableTopicSubscribeResponse (fields_of m.now) }
{
    let request = has_number(m, 1);
    let assignment = assignment_complete(m, 4);
    let there = wire_values::has_part(m, 4);
    both(request, either(assignment, !there))
}

// A message of the kind has its required fields, and so has each message in it.
pub fn is_complete(kind: MessageKind, s: &[u8]) -> bool
    ensures { result ≡ is_complete kind (fields_of s.now) }
{
    match kind {
        MessageKind::CommandScalableTopicAssignmentUpdate => update_complete(s),
        MessageKind::CommandScalableTopicSubscribeResponse => response_complete(s),
        MessageKind::ScalableConsumerAssignment => list_complete(s),
        MessageKind::ScalableAssignedSegment => segment_complete(s),
        MessageKind::IntRange => range_complete(s),
        MessageKind::CommandWatchScalableTopicsUpdate => has_number(s, 1),
        MessageKind::ScalableTopicsSnapshot => true,
        MessageKind::ScalableTopicsDiff => true,
    }
}
