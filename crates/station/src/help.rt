// The help page.
use log_text::text;
use std::io;
use std::io::Write;

pub fn show<W: Write>(to: &mut W) -> io::Result<()> {
    text(
        to,
        b"Runs a log of a station's session calls and prints what each call answers.

    station [--lists] [--state] [--stop] < LOG
    station --help

  --state   after each call, the session's record
  --lists   after a call, what it lost and gained, and the list that is held where it was set anew
  --stop    the run ends at the first damaged line
  --help    this page

The log: one call to a line, one space between two words. Empty lines and lines that start
with # are passed over, but counted.

  open CONSUMER INCARNATION TOPIC SUBSCRIPTION NAME KIND    a session; KIND: stream, checkpoint
  update INCARNATION MESSAGE                                a push of the controller
  response INCARNATION MESSAGE                              the answer to the registration
  drain READER                                              the next push of the queue for a reader
  begin INCARNATION                                         a new link to the controller
  invalidate                                                the controller is not trusted now
  segment KEY                                               the segment held that takes a key
  key ID                                                    a key that falls in a segment held
  charge SEGMENT SECONDS RATE REMAINDER                     what a holding costs; needs no session
  churn                                                     the lost counts; needs no session
  is_open CONTRACT SECOND                                   whether a second is open; likewise
  earliest_open CONTRACT SECOND                             the earliest open second from it on
  check_log DELTAS LOG                                      whether a log passes; needs no session
  command BYTES                                             what an outer message carries; likewise
  save                                                      the session kept, for a restore
  restore                                                   the session that was saved last

CONSUMER, INCARNATION, READER, ID, SECONDS, RATE, REMAINDER and SECOND are decimal numbers below
2^64; a READER is one of 0 to 7, each of which is handed every push of the queue.
TOPIC, SUBSCRIPTION, NAME, MESSAGE, KEY, SEGMENT, CONTRACT, DELTAS, LOG and BYTES are bytes, at most
65536: in hexadecimal behind 0x, or as they stand. A MESSAGE is what the controller sends, in
Protocol Buffers; BYTES are those of a BaseCommand, in which such a message stands; a SEGMENT is one
record, packed as in a list. RATE is in millionths of a euro per full key space and hour; REMAINDER is that of the segment's last charge, 0 before the first. A SECOND is
counted from 2000-01-01 00:00 UTC, a Saturday. A CONTRACT is the count of terms and that of weekly
windows, 16 bits each, then start and end of each, 64 bits each, most significant bit first; those
of windows are in seconds from Saturday 00:00. DELTAS are packed one behind another; an entry of the
LOG has 9 bytes: a bit (0 detach, 1 attach), the id, seven zero bits. A log of calls may have any
number of lines, each of at most 524287 bytes. The session has a store of full size: 1024 pushes
of up to 2046 bytes each may wait in its queue.

For each call a line LINE CALL ANSWER, where LINE is its number in the log and ANSWER one of

  accepted
  accepted baseline epoch E segments N       of a response: the list that it gave
  none                                       nothing changed; no segment; no key; no open second
  saved N                                    the session has N bytes
  ID                                         the segment that takes the key
  0xBYTES                                    the four-byte key with the smallest hash of the segment
  charged N remainder M                      N millionths of a euro; M goes into the next charge
  lost S largest M                           of the latest 256 deltas since the last open, restore,
                                             begin or invalidate, a replay counted once for all
                                             readers: the sum of their lost counts, and the largest
  yes, no                                    whether the second is open; whether the log passes
  SECOND                                     the earliest open second
  update at START length N consumer ID       what a command carries, where, and the number to route
  response at START length N request ID      it by; the message itself is not tested
  watch at START length N watch ID
  parts TYPE COUNT                           its message is in no part, or in several
  other TYPE                                 another command
  delta epoch E lost L gained G              what the push changed, in numbers
  replay at PLACE epoch E lost L gained G    the same of a push of the queue, and its place
  refused N NAME WORD V ..                   the specification's number, the name, and each number
                                             that comes with it behind its own name

and behind `refused 16 Broker code N` the broker's text: text \"..\". In quotes every byte that is
not printable ASCII, and each quote and backslash, is written \\xHH.
With --state:   state incarnation I floor F registered R invalidated V queue Q drained D0 D1 .. D7
lost S largest M, where D0 to D7 count the pushes that each reader has drained
With --lists:   lost ID and gained ID START-END BUCKETS of a delta or a replay, baseline ID START-END BUCKETS
of an accepted response; - for no buckets. Behind a delta and an accepted call the list that is held
then, held none or held epoch E segments N with a row ID START-END BUCKETS for each segment.
For a line that is no call LINE damaged: REASON; the run goes on.
At the end C calls: A accepted, R refused; D damaged lines.

The exit status is always 0: look at the last line, which counts refused calls and damaged
lines. An option that is not known is named on standard error, and nothing is run.
",
    )
}
