// Segment names read: the Rust's `SegmentSource::new` and `parent_topic`.
//
// A name is `segment://`, a parent's path, '/', and a descriptor `ssss-eeee-id`. Every function takes a part of any length and content.
#![tactic(auto)]

ghost use Rattle.std.specs.Prelude.{◌≡◌};
ghost use Rattle.name_topic.specs.Build.{name_outcome};
ghost use Rattle.name_source.specs.Parse.{last_slash, descriptor_stage, parse_segment_topic, parse_text, segment_source, parent_topic};

use name_digits::{hex_word, segment_id};
use name_parents::{DASH, SLASH, class_of};
use name_topic::SCHEME;
use refusal::Refusal;
use topic_types::{KeyRange, SegmentId};

// A segment as its name tells it.
#[derive(Clone, Copy)]
pub struct SegmentSource {
    pub segment_id: SegmentId,
    pub key_range: KeyRange,
}

// The place of the last '/', if there is one.
fn last_slash(s: &[u8]) -> Option<usize>
    ensures { result ≡ last_slash s.now }
{
    let mut i = s.len();
    while 0 < i {
        i -= 1;
        if class_of(s[i]) == SLASH {
            return Some(i);
        }
    }
    None
}

// The descriptor d, behind a path that ends at path_end: 18, then 9. Answers that place, the range and the id.
fn parse_descriptor(d: &[u8], path_end: usize) -> Result<(usize, KeyRange, SegmentId), Refusal>
    ensures { result ≡ descriptor_stage path_end d.now }
{
    if d.len() < 11 || class_of(d[4]) != DASH || class_of(d[9]) != DASH {
        return Err(Refusal::InvalidSegment);
    }
    let start = hex_word(&d[..4]).ok_or(Refusal::InvalidSegment)?;
    let end = hex_word(&d[5..9]).ok_or(Refusal::InvalidSegment)?;
    let id = segment_id(&d[10..]).ok_or(Refusal::InvalidSegment)?;
    let range = KeyRange::new(start as u32, end as u32)?;
    Ok((path_end, range, SegmentId(id)))
}

// The name t: 18 without prefix or slash, 12, then the descriptor. Answers the place where the parent's path ends, the range and the id.
fn parse_segment_topic(t: &[u8]) -> Result<(usize, KeyRange, SegmentId), Refusal>
    ensures { result ≡ parse_segment_topic t.now }
{
    if !slice::starts_with(t, b"segment://") {
        return Err(Refusal::InvalidSegment);
    }
    let n = last_slash(&t[SCHEME..]).ok_or(Refusal::InvalidSegment)?;
    let path_end = SCHEME + n;
    if !name_parents::is_path(&t[SCHEME..path_end]) {
        return Err(Refusal::InvalidParent);
    }
    parse_descriptor(&t[path_end + 1..], path_end)
}

// The text t: 7, then the name.
fn parse_text(t: &[u8]) -> Result<(usize, KeyRange, SegmentId), Refusal>
    ensures { result ≡ parse_text t.now }
{
    if !utf8::is_utf8(t) {
        return Err(Refusal::InvalidUtf8);
    }
    parse_segment_topic(t)
}

// Reads the name of the segment with the given id. Tested in order: UTF-8 (7), prefix and slash (18), the parent's path (12), the descriptor (18),
// its range (9), its id (19).
pub fn segment_source(id: SegmentId, topic: &[u8]) -> Result<SegmentSource, Refusal>
    ensures { result ≡ segment_source id topic.now }
{
    let (_, key_range, topic_id) = parse_text(topic)?;
    if topic_id.0 != id.0 {
        return Err(Refusal::SegmentIdMismatch {
            segment_id: id,
            topic_id,
        });
    }
    Ok(SegmentSource {
        segment_id: id,
        key_range,
    })
}

// Writes the parent of a segment's name: `topic://` and the path. Tested as by `segment_source` without the id, then the room (21). A refusal
// leaves the output as it was. Answers how many bytes the parent has.
pub fn parent_topic(topic: &[u8], out: &mut [u8]) -> Result<usize, Refusal>
    ensures { name_outcome result out.new ≡ parent_topic topic.now out.old }
{
    let (path_end, _, _) = parse_text(topic)?;
    let n = path_end - 2;
    if out.len() < n {
        return Err(Refusal::ResultTooLong);
    }
    slice_int::put_bytes(out, 0, b"topic://");
    slice_int::put_bytes(out, name_parents::SCHEME, &topic[SCHEME..path_end]);
    Ok(n)
}
