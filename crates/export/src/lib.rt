// The calls for C and Rust: every call of the port under the prefix cuddrewyn_, over numbers, slices and plain structs. docs/EXPORTS.md says what each
// takes and answers.
//
// A session's record is lent, as store, message and output are: a call that is taken writes it back, a refusal leaves it as it was, byte by byte. `open` and `restore`
// give one, and `check` and `save` take a copy. A slice is a pointer and a length.
#![tactic(auto)]

ghost use Rattle.std.specs.Prelude.{◌≡◌};

mod charge_calls;
mod churn_calls;
mod command_calls;
mod hours_calls;
mod key_calls;
mod list_calls;
mod log_calls;
mod name_calls;
mod range_calls;
mod save_calls;
mod session_calls;
mod watch_calls;

// A part of a message.
#[repr(C)]
#[derive(Clone, Copy)]
pub struct Part {
    pub start: usize,
    pub length: usize,
}

// The version of the structs' layout and of the calls' parameters. The symbol's name has it too: a caller made for another version does not link.
#[unsafe(no_mangle)]
pub extern "C" fn cuddrewyn_abi_3() -> u32
    ensures { result ≡ 3 }
{
    3
}
