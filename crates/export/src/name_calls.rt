// Names of segments.
ghost use Rattle.std.specs.Prelude.{◌≡◌};
ghost use Rattle.name_topic.specs.Build.{canonical_segment_topic};
ghost use Rattle.name_source.specs.Parse.{segment_source, parent_topic};
ghost use Rattle.export.specs.Exports.{name_of, source_reply};

use crate::list_calls::write_reply;
use export_reply::Reply;
use topic_types::SegmentId;

// The name of a segment: `canonical_segment_topic`.
#[unsafe(no_mangle)]
pub extern "C" fn cuddrewyn_segment_topic(
    parent: &[u8],
    start: u32,
    end: u32,
    segment_id: u64,
    out: &mut [u8],
) -> Reply
    ensures { record { reply = result; out = out.new }
        ≡ name_of (canonical_segment_topic parent.now start end (record { 0 = segment_id }) out.old) }
{
    write_reply(name_topic::canonical_segment_topic(parent, start, end, SegmentId(segment_id), out))
}

// The range in a segment's name: `SegmentSource::new`.
#[unsafe(no_mangle)]
pub extern "C" fn cuddrewyn_segment_source(segment_id: u64, topic: &[u8]) -> Reply
    ensures { result ≡ source_reply (segment_source (record { 0 = segment_id }) topic.now) }
{
    match name_source::segment_source(SegmentId(segment_id), topic) {
        Ok(s) => {
            let range = s.key_range;
            export_reply::two(export_reply::FOUND, range.start as u64, range.end as u64)
        }
        Err(x) => export_reply::refused(x),
    }
}

// The parent of a segment's name: `SegmentSource::parent_topic`.
#[unsafe(no_mangle)]
pub extern "C" fn cuddrewyn_parent_topic(topic: &[u8], out: &mut [u8]) -> Reply
    ensures { record { reply = result; out = out.new }
        ≡ name_of (parent_topic topic.now out.old) }
{
    write_reply(name_source::parent_topic(topic, out))
}
