// What the outer message of a connection carries.
use log_text::{labelled, refused, text};
use refusal::Refusal;
use std::io;
use std::io::Write;
use wire_command::Command;

// A message that a command carries: its name and place, and the number by which it is routed.
fn message<W: Write>(
    to: &mut W,
    name: &[u8],
    start: usize,
    len: usize,
    label: &[u8],
    id: u64,
) -> io::Result<bool> {
    text(to, name)?;
    labelled(to, b" at ", start as u64)?;
    labelled(to, b" length ", len as u64)?;
    labelled(to, label, id)?;
    Ok(false)
}

// A command that carries none: its type, and of one of the three the parts of its message.
fn command_type<W: Write>(
    to: &mut W,
    label: &[u8],
    c: Result<Command, Refusal>,
) -> io::Result<bool> {
    let r = wire_command::command_reply(c);
    text(to, label)?;
    log_text::attached_as(to, true, r.first)?;
    if r.count == 2 {
        labelled(to, b" ", r.second)?;
    }
    Ok(false)
}

// What a command carries.
pub fn carried<W: Write>(to: &mut W, bytes: &[u8]) -> io::Result<bool> {
    let c = wire_command::read_command(bytes);
    match c {
        Ok(Command::Update(start, len, id)) => message(
            to,
            b"update",
            start,
            len,
            b" consumer ",
            id,
        ),
        Ok(Command::Response(start, len, id)) => message(
            to,
            b"response",
            start,
            len,
            b" request ",
            id,
        ),
        Ok(Command::Watch(start, len, id)) => message(to, b"watch", start, len, b" watch ", id),
        Ok(Command::Parts(_, _)) => command_type(to, b"parts", c),
        Ok(Command::Other(_)) => command_type(to, b"other", c),
        Err(x) => refused(to, x),
    }
}
