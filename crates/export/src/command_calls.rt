// The outer message of a connection.
ghost use Rattle.std.specs.Prelude.{◌≡◌};
ghost use Rattle.wire_command.specs.Commands.{command_of};
ghost use Rattle.wire_command.specs.Replies.{command_reply};

use export_reply::Reply;

// Which of the three messages the bytes of a BaseCommand carry, where it stands in them, and the number by which it is routed.
#[unsafe(no_mangle)]
pub extern "C" fn cuddrewyn_command(bytes: &[u8]) -> Reply
    ensures { result ≡ command_reply (command_of bytes.now) }
{
    wire_command::command_reply(wire_command::read_command(bytes))
}
