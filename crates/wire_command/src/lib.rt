// The outer message of a connection, BaseCommand: which of the three messages it carries, where that stands in the bytes, and the number by which it
// is routed.
//
// Only the shell is looked at: its own first fault (3, 4, 6) is refused, the carried message is not read but for its field 1. The calls of the
// session and of the watch look for its faults. No bytes are copied: the caller lends them the part.
#![tactic(auto)]

ghost use Rattle.std.specs.Prelude.{◌≡◌, [], ◌∷◌, pos};
ghost use Rattle.export_reply.specs.Replies.{taken_reply};
ghost use Rattle.wire.specs.Field.{key_read};
ghost use Rattle.wire.specs.Fields.{fields_of};
ghost use Rattle.wire_command.specs.Shell.{shell_value, shell_fields};
ghost use Rattle.wire_command.specs.Places.{places_of};
ghost use Rattle.wire_command.specs.Commands.{Made, message_in, command_by, command_of};
ghost use Rattle.wire_command.specs.Steps.{step_by, found_in};
ghost use Rattle.wire_command.specs.Replies.{command_reply};

use export_reply::Reply;
use refusal::Refusal;
use wire::Body;
use wire_schema::{MessageKind, ValueKind};
use wire_values::Front;

// What a command carries.
#[derive(Clone, Copy)]
pub enum Command {
    // CommandScalableTopicAssignmentUpdate: where it starts, its length, and its consumer id.
    Update(usize, usize, u64),
    // CommandScalableTopicSubscribeResponse: where it starts, its length, and its request id.
    Response(usize, usize, u64),
    // CommandWatchScalableTopicsUpdate: where it starts, its length, and its watch id.
    Watch(usize, usize, u64),
    // The command's type is that of one of the three, whose message stands in so many parts: in none, or in more than one.
    Parts(i32, usize),
    // Another command's type.
    Other(i32),
}

// The message of a field: where it starts, its length and the number of its field 1; or in how many parts it stands.
#[derive(Clone, Copy)]
pub enum Message {
    At(usize, usize, u64),
    Parts(usize),
}

// The parts of a field: how many, and where the last starts and its length.
#[derive(Clone, Copy)]
pub struct Found {
    pub count: usize,
    pub start: usize,
    pub length: usize,
}

// What field f of a command holds.
fn shell_value(f: u64) -> ValueKind
    ensures { result ≡ shell_value f }
{
    match f {
        1 => ValueKind::Number,
        74 => ValueKind::Message(MessageKind::CommandScalableTopicSubscribeResponse),
        75 => ValueKind::Message(MessageKind::CommandScalableTopicAssignmentUpdate),
        77 => ValueKind::Message(MessageKind::CommandWatchScalableTopicsUpdate),
        _ => ValueKind::Any,
    }
}

// The length of the field at the front of a part of a command: refused at its key (3), its type (4), its length or value (3).
fn read_step(s: &[u8]) -> Result<usize, Refusal>
    ensures { result ≡ step_by (key_read s.now) s.now }
{
    let (f, w, n) = wire::read_key(s).ok_or(Refusal::InvalidWireFormat)?;
    let v = shell_value(f);
    if !wire_schema::fits_wire(v, w) {
        return Err(Refusal::WrongWireType);
    }
    let body = wire::read_body(w, &s[n..]).ok_or(Refusal::InvalidWireFormat)?;
    match body {
        Body::Number(_, m) => Ok(n + m),
        Body::Fixed(m) => Ok(n + m),
        Body::Part(m, len) => Ok(n + (m + len)),
    }
}

// The first 3 or 4 of a command's fields, in byte order.
fn check_fields(s: &[u8]) -> Result<(), Refusal>
    ensures { result ≡ shell_fields (fields_of s.now) }
{
    let mut at: usize = 0;
    while at < s.len() {
        at += read_step(&s[at..])?;
    }
    Ok(())
}

// The parts of field n.
fn find_parts(s: &[u8], n: u64) -> Found
    ensures { result ≡ found_in (places_of n s.now) }
{
    let mut count: usize = 0;
    let mut start: usize = 0;
    let mut length: usize = 0;
    let mut at: usize = 0;
    while at < s.len() {
        match wire_values::read_front(&s[at..]) {
            None => {
                return Found {
                    count,
                    start,
                    length,
                };
            }
            Some(Front::Number(_, _, size)) => at += size,
            Some(Front::Part(f, from, len)) => {
                let begin = at + from;
                if f == n {
                    count += 1;
                    start = begin;
                    length = len;
                }
                at = begin + len;
            }
            Some(Front::Fixed(size)) => at += size,
        }
    }
    Found {
        count,
        start,
        length,
    }
}

// The message of field n.
fn find_message(s: &[u8], n: u64) -> Message
    ensures { result ≡ message_in n s.now }
{
    let found = find_parts(s, n);
    if found.count == 1 {
        let start = found.start;
        let end = start + found.length;
        let id = wire_values::number(&s[start..end], 1);
        return Message::At(start, found.length, id);
    }
    Message::Parts(found.count)
}

impl Message {
    // The command of the type t with this message: what `make` makes of it, or in how many parts it stands.
    fn command<F: FnOnce(usize, usize, u64) -> Command>(self, t: i32, make: F) -> Command
        requires { F.IsAlwaysCallable make }
        ensures { Made (F.post make) t self result }
    {
        match self {
            Message::At(start, len, id) => make(start, len, id),
            Message::Parts(k) => Command::Parts(t, k),
        }
    }
}

// A command of the type t: SCALABLE_TOPIC_SUBSCRIBE_RESPONSE, SCALABLE_TOPIC_ASSIGNMENT_UPDATE, WATCH_SCALABLE_TOPICS_UPDATE, or another.
fn by_type(s: &[u8], t: i32) -> Result<Command, Refusal>
    ensures { result ≡ command_by t s.now }
{
    if t == 74 {
        return Ok(find_message(s, 74).command(74, Command::Response));
    }
    if t == 75 {
        return Ok(find_message(s, 75).command(75, Command::Update));
    }
    if t == 77 {
        return Ok(find_message(s, 77).command(77, Command::Watch));
    }
    Ok(Command::Other(t))
}

// What the bytes of a BaseCommand carry.
pub fn read_command(s: &[u8]) -> Result<Command, Refusal>
    ensures { result ≡ command_of s.now }
{
    check_fields(s)?;
    let v = wire_values::last_number(s, 1).ok_or(Refusal::MissingField)?;
    by_type(s, wire_values::int32(v))
}

// A message of a type that was found: where it starts, its length, and the number by which it is routed.
fn found_reply(t: u64, start: usize, len: usize, id: u64) -> Reply
    ensures { result ≡ taken_reply 8 (pos t ∷ pos start ∷ pos len ∷ pos id ∷ []) }
{
    Reply {
        answer: export_reply::FOUND,
        number: 0,
        count: 4,
        first: t,
        second: start as u64,
        third: len as u64,
        fourth: id,
    }
}

// What a command carries, in numbers.
pub fn command_reply(c: Result<Command, Refusal>) -> Reply
    ensures { result ≡ command_reply c }
{
    let command = match c {
        Ok(command) => command,
        Err(x) => return export_reply::refused(x),
    };
    match command {
        Command::Response(start, len, id) => found_reply(74, start, len, id),
        Command::Update(start, len, id) => found_reply(75, start, len, id),
        Command::Watch(start, len, id) => found_reply(77, start, len, id),
        Command::Parts(t, k) => export_reply::two(
            export_reply::NO,
            export_reply::word(t),
            k as u64,
        ),
        Command::Other(t) => export_reply::one(export_reply::NO, export_reply::word(t)),
    }
}
