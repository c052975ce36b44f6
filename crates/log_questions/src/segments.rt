// Questions about the list that is held: which segment takes a key, and a key that falls in a segment. Where no list is
// held there is none.
use crate::{none, number};
use key_for_hash::TestKey;
use log_text::refused;
use std::io;
use std::io::Write;
use topic_types::SegmentId;

// The list at the front of a slot, as long as it is; empty where there is none.
fn list_of(slot: &[u8]) -> &[u8] {
    match packed::read_front(slot) {
        Some((size, _)) if size <= slot.len() => &slot[..size],
        _ => &[],
    }
}

fn key_bytes<W: Write>(to: &mut W, k: TestKey) -> io::Result<bool> {
    log_text::four_bytes(to, k.first, k.second, k.third, k.fourth)?;
    Ok(false)
}

// The segment that takes a key.
pub fn segment<W: Write>(to: &mut W, slot: &[u8], key: &[u8]) -> io::Result<bool> {
    let list = list_of(slot);
    if list.is_empty() {
        return none(to);
    }
    match key_lookup::segment_for_key(key, list) {
        Ok(Some(id)) => number(to, id.0),
        Ok(None) => none(to),
        Err(x) => refused(to, x),
    }
}

// A key that falls in a segment.
pub fn key<W: Write>(to: &mut W, slot: &[u8], id: u64) -> io::Result<bool> {
    let list = list_of(slot);
    if list.is_empty() {
        return none(to);
    }
    match key_in_segment::key_in_segment(list, SegmentId(id)) {
        Ok(Some(k)) => key_bytes(to, k),
        Ok(None) => none(to),
        Err(x) => refused(to, x),
    }
}
