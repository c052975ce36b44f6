// Deltas read, and the delta from one packed assignment to the next.
ghost use Rattle.std.specs.Prelude.{◌≡◌, true};
ghost use Rattle.packed.specs.Assignment.{starts_assignment};

use crate::buffers::FILL;
use crate::output_vectors::written;
use crate::print;
use std::io;
use std::io::Write;

// delta BYTES: how many ids it loses and how many records it gains
fn delta<W: Write>(to: &mut W, bytes: &[u8]) -> io::Result<()> {
    match packed_delta::read_delta(bytes) {
        Some((lost, gained)) => print::pair(to, lost as u64, gained as u64),
        None => print::malformed(to),
    }
}

fn is_packed(s: &[u8]) -> bool
    ensures { result ≡ true → starts_assignment s.now ≡ true }
{
    match packed::read_whole(s) {
        Some((_, _)) => true,
        None => false,
    }
}

// difference OLD NEW
fn write_between<W: Write>(to: &mut W, old: &[u8], new: &[u8]) -> io::Result<()> {
    if is_packed(old) && is_packed(new) {
        let mut out = [FILL; packed_diff::LONGEST];
        let n = packed_diff::write_delta(old, new, &mut out);
        written(to, &out, n)
    } else {
        print::malformed(to)
    }
}

pub fn run<W: Write>(to: &mut W, name: &[u8], a: &[u8], b: &[u8]) -> io::Result<bool> {
    match log_lines::place_of(b"delta difference", name) {
        0 => delta(to, a)?,
        1 => write_between(to, a, b)?,
        _ => return Ok(false),
    }
    Ok(true)
}
