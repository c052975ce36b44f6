// A refusal: the specification's number, the variant's name, then the numbers attached to it, each behind its name.
use crate::print::{attached, labelled, space, text};
use export_reply::Reply;
use refusal::Refusal;
use std::io;
use std::io::Write;

// The names by the specification's numbers, word 0 for none.
fn named<W: Write>(to: &mut W, number: usize) -> io::Result<()> {
    let name = log_lines::word(
        b" StoreTooShort OutputTooShort InvalidWireFormat WrongWireType - MissingField InvalidUtf8 \
              IdentityTooLong InvalidRange InvalidBucketRange OverlappingBucketRanges InvalidParent \
              AttachmentMismatch DuplicateSegment AssignmentTooLong Broker Empty InvalidSegment SegmentIdMismatch \
              MalformedInput ResultTooLong MalformedStore IncarnationMismatch ConsumerMismatch \
              NonAdvancingIncarnation CrossIncarnationEpochRegression StaleEpoch PreBaselineBufferFull \
              WatchMismatch MalformedSet SetTooLong KeyTooLong UnknownReader BucketOutsideSegment InvalidContract \
              ChargeTooLarge InvalidLog InvalidWindow - - - - - - - - - - - - - - - - - - - - - - - - - \
              MalformedSave",
        number,
    );
    text(to, name)
}

// A space, then a number; where it may be negative it is a word of 64 bits in two's complement.
pub fn attached_as<W: Write>(to: &mut W, is_signed: bool, v: u64) -> io::Result<()> {
    if is_signed {
        let n = v.cast_signed();
        write!(to, " {n}")
    } else {
        attached(to, v)
    }
}

// The numbers of a refusal, each behind a space, as words.
pub fn values<W: Write>(to: &mut W, r: Reply) -> io::Result<()> {
    let all = [r.first, r.second, r.third, r.fourth];
    for v in all.into_iter().take(usize::from(r.count)) {
        attached(to, v)?;
    }
    Ok(())
}

// A number behind its name, which is part k of the names.
fn named_value<W: Write>(
    to: &mut W,
    names: &[u8],
    k: usize,
    is_signed: bool,
    v: u64,
) -> io::Result<()> {
    space(to)?;
    text(to, log_lines::part(names, k, b','))?;
    attached_as(to, is_signed, v)
}

// The numbers of a refusal, each behind its name. A broker's code and the ends of a bucket range may be negative.
fn named_values<W: Write>(to: &mut W, r: Reply, names: &[u8]) -> io::Result<()> {
    let all = [
        (r.first, r.number == 16),
        (r.second, false),
        (r.third, true),
        (r.fourth, true),
    ];
    for (k, (v, is_signed)) in all.into_iter().enumerate().take(usize::from(r.count)) {
        named_value(to, names, k, is_signed, v)?;
    }
    Ok(())
}

// The same with the names that the refusal of a number has, word 0 for none. A range of kind 2 has an end alone.
fn values_of<W: Write>(to: &mut W, r: Reply, number: usize) -> io::Result<()> {
    if number == 9 && r.second == 2 {
        return named_values(to, r, b"segment_id,kind,end");
    }
    let names = log_lines::word(
        b" - - - - - - - - segment_id,kind,start,end segment_id,index,start,end segment_id - segment_id \
              segment_id - code request_id - segment_id,topic_id - - - got,expected got,expected got,prev \
              got,floor got,prev max got,expected - - - - segment_id,index",
        number,
    );
    named_values(to, r, names)
}

// `refused N NAME WORD V ..` of a session's reply that is a refusal
pub fn refused_reply<W: Write>(to: &mut W, r: Reply) -> io::Result<()> {
    let number = r.number as usize;
    labelled(to, b"refused ", r.number as u64)?;
    space(to)?;
    named(to, number)?;
    values_of(to, r, number)
}

// The same of a refusal that shares its number with another.
fn refused_as<W: Write>(to: &mut W, r: Reply, name: &[u8], names: &[u8]) -> io::Result<()> {
    labelled(to, b"refused ", r.number as u64)?;
    space(to)?;
    text(to, name)?;
    named_values(to, r, names)
}

// A range outside a message. One of kind 2 has an end alone.
fn refused_range<W: Write>(to: &mut W, r: Reply) -> io::Result<()> {
    if r.first == 2 {
        refused_as(to, r, b"InvalidKeyRange", b"kind,end")
    } else {
        refused_as(to, r, b"InvalidKeyRange", b"kind,start,end")
    }
}

// `refused N NAME WORD V ..`. Answers true: it is a refusal.
pub fn refused<W: Write>(to: &mut W, x: Refusal) -> io::Result<bool> {
    let r = export_reply::refused(x);
    match x {
        Refusal::InvalidKeyRange { source: _ } => refused_range(to, r)?,
        Refusal::EmptyUpdate { watch_id: _ } => refused_as(to, r, b"EmptyUpdate", b"watch_id")?,
        _ => refused_reply(to, r)?,
    }
    Ok(true)
}
