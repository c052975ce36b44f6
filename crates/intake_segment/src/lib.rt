// The tests of one segment of a message, 9 to 11, 34, 12, 13: `AssignedSegment::try_from_pb`.
//
// The segment comes with the walk over it (segment_scan), which has tested its buckets one by one; `parent_valid` says that the parent is one.
#![tactic(auto)]

ghost use Rattle.std.specs.Prelude.{◌≡◌};
ghost use Rattle.name_parents.specs.Parents.{is_parent};
ghost use Rattle.keyed.specs.Keyed.{or_else};
ghost use Rattle.wire_readers.specs.Messages.{read_segment};
ghost use Rattle.wire_readers.specs.Places.{SegmentIs};
ghost use Rattle.intake_content.specs.Content.{wire_id, bucket_fault, overlap_fault, outside_fault, name_fault, segment_fault};
ghost use Rattle.intake_segment.specs.Verdicts.{verdict_of, ScanOf};

use intake_scan::SegmentScan;
use name_parents::SCHEME;
use refusal::Refusal;
use topic_types::{KeyRange, SegmentId};
use wire_readers::SegmentHead;

// The parent (12), then the segment's name (13).
fn check_name(p: &[u8], parent: &[u8], parent_valid: bool, head: SegmentHead) -> Result<(), Refusal>
    requires parent_valid_value { parent_valid ≡ is_parent parent.now }
    requires segment_is { SegmentIs p.now head }
    ensures { result ≡ verdict_of (name_fault parent.now (read_segment p.now)) }
{
    if !parent_valid {
        return Err(Refusal::InvalidParent);
    }
    let segment_id = SegmentId(head.segment_id);
    let range = KeyRange {
        start: head.hash_start,
        end: head.hash_end,
    };
    let from = head.topic_start;
    let to = from + head.topic_len;
    if name_topic::is_segment_topic(&p[from..to], &parent[SCHEME..], range, segment_id) {
        Ok(())
    } else {
        Err(Refusal::AttachmentMismatch { segment_id })
    }
}

// Each bucket against the segment's range (34), then the name.
fn check_inside(
    p: &[u8],
    parent: &[u8],
    parent_valid: bool,
    head: SegmentHead,
) -> Result<(), Refusal>
    requires parent_valid_value { parent_valid ≡ is_parent parent.now }
    requires segment_is { SegmentIs p.now head }
    ensures { result ≡ verdict_of (or_else (outside_fault (read_segment p.now)) (name_fault parent.now (read_segment p.now))) }
{
    let range = KeyRange {
        start: head.hash_start,
        end: head.hash_end,
    };
    match intake_buckets::first_outside(p, range) {
        Some(index) => Err(Refusal::BucketOutsideSegment {
            segment_id: SegmentId(head.segment_id),
            index,
        }),
        None => check_name(p, parent, parent_valid, head),
    }
}

// Each bucket (10), then all of them (11), unless they rise; then the segment's range (34) and the name. Without buckets the name alone.
fn check_buckets(
    p: &[u8],
    parent: &[u8],
    parent_valid: bool,
    scan: SegmentScan,
) -> Result<(), Refusal>
    requires parent_valid_value { parent_valid ≡ is_parent parent.now }
    requires scan_of { ScanOf p.now scan }
    ensures { result ≡ verdict_of (or_else (bucket_fault (wire_id (read_segment p.now)) 0 (read_segment p.now).bucket_ranges)
        (or_else (overlap_fault (read_segment p.now))
        (or_else (outside_fault (read_segment p.now)) (name_fault parent.now (read_segment p.now))))) }
{
    let head = scan.head;
    let run = scan.run;
    let segment_id = SegmentId(head.segment_id);
    if !run.valid {
        return Err(Refusal::InvalidBucketRange {
            segment_id,
            index: run.count,
            start: run.last.start,
            end: run.last.end,
        });
    }
    if run.count == 0 {
        return check_name(p, parent, parent_valid, head);
    }
    if !run.rising && intake_buckets::buckets_overlap(p) {
        return Err(Refusal::OverlappingBucketRanges { segment_id });
    }
    check_inside(p, parent, parent_valid, head)
}

// The segment in the part p: its range (9), then buckets and name.
pub fn check_segment(
    p: &[u8],
    parent: &[u8],
    parent_valid: bool,
    scan: SegmentScan,
) -> Result<(), Refusal>
    requires parent_valid_value { parent_valid ≡ is_parent parent.now }
    requires scan_of { ScanOf p.now scan }
    ensures { result ≡ verdict_of (segment_fault parent.now (read_segment p.now)) }
{
    let head = scan.head;
    match KeyRange::new(head.hash_start, head.hash_end) {
        Err(source) => Err(Refusal::InvalidRange {
            segment_id: SegmentId(head.segment_id),
            source,
        }),
        Ok(_) => check_buckets(p, parent, parent_valid, scan),
    }
}
