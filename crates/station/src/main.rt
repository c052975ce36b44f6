// Runs a log of a session's calls, read from standard input, on a store of full size: each call is run on the session,
// and its answer is written to standard output.
//
// A line is a call and its words, with one space between two. Empty lines and lines that start with '#' are passed
// over, but counted. A number is decimal. Bytes are hexadecimal behind 0x, or as they stand.
//
//     open CONSUMER INCARNATION TOPIC SUBSCRIPTION NAME KIND      KIND: stream or checkpoint
//     update INCARNATION MESSAGE
//     response INCARNATION MESSAGE
//     drain
//     begin INCARNATION
//     invalidate
//     segment KEY
//     key ID
//     charge SEGMENT SECONDS RATE REMAINDER
//     churn
//     is_open CONTRACT SECOND
//     earliest_open CONTRACT SECOND
//     check_log DELTAS LOG
//     command BYTES
//     save
//     restore
//
// Each call is answered by a line `LINE CALL ANSWER`; a line that is none by `LINE damaged: REASON`, and the run goes
// on. The whole page is `help`.
//
// The calls are the proved ones. The functions here promise only what keeps them in bounds: what is read and what is
// written is not proved.
#![tactic(auto)]

mod arguments;
mod calls;
mod help;
mod input;
mod report;
mod step;
mod window;

use crate::arguments::Options;
use std::io;
use std::io::{BufWriter, Read, Write};

// The bytes of a full-size store: three slots, and a queue of 1,024 lists of up to 2,046 bytes.
const STORE: usize = 2103296;

// The bytes of a session of that store, saved.
const KEPT: usize = STORE + session_saved::FRAME;

// The bytes of the buffer of the input: a line has to be shorter. Any whose words stand for at most 65,536 bytes each
// is.
const BUFFER: usize = 524288;

// Does what the program's arguments ask: runs the log that is read by a buffer on a store, with a window of lost counts
// and a buffer for a saved session beside it, or shows the help page.
fn start<R: Read, W: Write>(
    from: &mut R,
    to: &mut W,
    options: Options,
    buffer: &mut [u8],
    store: &mut [u8],
    kept: &mut [u8],
) -> io::Result<()> {
    if options.is_wrong {
        return Ok(());
    }
    if options.help {
        return help::show(to);
    }
    let mut window = [0u8; churn::WINDOW];
    input::run_log(from, to, options, buffer, store, &mut window, kept)
}

fn main(rt: HostRuntime) -> io::Result<()> {
    let options = arguments::given(&rt, &mut rt.stderr())?;
    let mut buffer = vec![in rt.alloc(); 0u8; BUFFER]?;
    let mut store = vec![in rt.alloc(); 0u8; STORE]?;
    let mut kept = vec![in rt.alloc(); 0u8; KEPT]?;
    let mut to = BufWriter::new(rt.alloc(), rt.stdout())?;
    start(
        &mut rt.reader(),
        &mut to,
        options,
        buffer.as_mut_slice(),
        store.as_mut_slice(),
        kept.as_mut_slice(),
    )?;
    to.flush()
}
