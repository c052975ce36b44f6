// Keys: the segment that takes one, the one that has a hash, and one that falls in a segment.
ghost use Rattle.std.specs.Prelude.{◌≡◌};
ghost use Rattle.key_lookup.specs.Lookup.{segment_for_key};
ghost use Rattle.key_for_hash.specs.Inverse.{key_for_hash};
ghost use Rattle.key_in_segment.specs.SegmentKey.{key_in_segment};
ghost use Rattle.export.specs.Exports.{segment_reply, key_reply, key_in_reply};

use export_reply::Reply;
use key_for_hash::TestKey;
use topic_types::SegmentId;

// The id of the segment of a list that takes a key.
#[unsafe(no_mangle)]
pub extern "C" fn cuddrewyn_segment_for_key(key: &[u8], assignment: &[u8]) -> Reply
    ensures { result ≡ segment_reply (segment_for_key key.now assignment.now) }
{
    match key_lookup::segment_for_key(key, assignment) {
        Ok(Some(id)) => export_reply::one(export_reply::FOUND, id.0),
        Ok(None) => export_reply::plain(export_reply::NO), // no segment takes it
        Err(x) => export_reply::refused(x),
    }
}

// The four bytes of a key, a value each.
fn key_reply(k: TestKey) -> Reply
    ensures { result ≡ key_reply k }
{
    Reply {
        answer: export_reply::FOUND,
        number: 0,
        count: 4,
        first: k.first as u64,
        second: k.second as u64,
        third: k.third as u64,
        fourth: k.fourth as u64,
    }
}

// The four-byte key that has a hash.
#[unsafe(no_mangle)]
pub extern "C" fn cuddrewyn_key_for_hash(hash: u32) -> Reply
    ensures { result ≡ key_reply (key_for_hash hash) }
{
    key_reply(key_for_hash::key_for_hash(hash))
}

// The four-byte key with the smallest hash that a segment of a list takes.
#[unsafe(no_mangle)]
pub extern "C" fn cuddrewyn_key_in_segment(assignment: &[u8], segment_id: u64) -> Reply
    ensures { result ≡ key_in_reply (key_in_segment assignment.now segment_id) }
{
    match key_in_segment::key_in_segment(assignment, SegmentId(segment_id)) {
        Ok(Some(k)) => key_reply(k),
        Ok(None) => export_reply::plain(export_reply::NO), // none falls in it
        Err(x) => export_reply::refused(x),
    }
}
