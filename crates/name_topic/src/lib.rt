// The names of segments, built or compared.
//
// Nothing here owns a text: a name is built into a lent output, or compared piece by piece.
#![tactic(auto)]

mod descriptor;

ghost use Rattle.std.specs.Prelude.{◌≡◌, ◌≤◌, length};
ghost use Rattle.slice.specs.Same.{same_bytes, starts_with};
ghost use Rattle.name_topic.specs.Names.{segment_scheme_size, segment_scheme, segment_topic};
ghost use Rattle.name_topic.specs.Build.{name_outcome, written, canonical_segment_topic};

pub use name_parents::is_parent;
use refusal::Refusal;
use topic_types::{KeyRange, SegmentId};

// "segment:" and "//" as numbers of 8 and of 2 bytes.
const SEGMENT_COLON: u64 = 0x7365_676D_656E_743A;

const TWO_SLASHES: u16 = 0x2F2F;

// The bytes of "segment://", before the path in a segment's name.
pub const SCHEME: usize = 10;

// The text starts with "segment://".
fn has_scheme(text: &[u8]) -> bool
    requires { segment_scheme_size ≤ length text.now }
    ensures { result ≡ starts_with segment_scheme text.now }
{
    slice_int::read_u64(text, 0) == SEGMENT_COLON && slice_int::read_u16(text, 8) == TWO_SLASHES
}

// The text is the name of the segment with that range and id below the path. The shortest such name has 12 bytes behind the path.
pub fn is_segment_topic(text: &[u8], path: &[u8], range: KeyRange, id: SegmentId) -> bool
    ensures { result ≡ same_bytes text.now (segment_topic path.now range id) }
{
    if text.len() < 22 || text.len() - 22 < path.len() {
        return false;
    }
    if !has_scheme(text) {
        return false;
    }
    let n = SCHEME + path.len();
    slice::same(&text[SCHEME..n], path) && descriptor::is_descriptor(text, n, range, id)
}

// Writes the name of the segment with that range and id below the path, where it fits (21 where not). Answers how many bytes it has.
pub fn write_segment_topic(
    path: &[u8],
    range: KeyRange,
    id: SegmentId,
    out: &mut [u8],
) -> Result<usize, Refusal>
    ensures { name_outcome result out.new ≡ written (segment_topic path.now range id) out.old }
{
    let tail = descriptor::descriptor_of(range, id);
    let from = tail.from;
    let bytes = tail.bytes;
    let rest = 42 - from;
    if out.len() < rest || out.len() - rest < path.len() {
        return Err(Refusal::ResultTooLong);
    }
    let n = SCHEME + path.len();
    slice_int::put_bytes(out, 0, b"segment://");
    slice_int::put_bytes(out, SCHEME, path);
    slice_int::put_bytes(out, n, &bytes[from..]);
    let len = rest + path.len();
    Ok(len)
}

// Writes the name of the segment with that range and id below the parent. Tested in order: the parent's UTF-8 (7), the range (9), the parent (12),
// the room (21). A refusal leaves the output as it was.
pub fn canonical_segment_topic(
    parent: &[u8],
    start: u32,
    end: u32,
    id: SegmentId,
    out: &mut [u8],
) -> Result<usize, Refusal>
    ensures { name_outcome result out.new ≡ canonical_segment_topic parent.now start end id out.old }
{
    if !utf8::is_utf8(parent) {
        return Err(Refusal::InvalidUtf8);
    }
    let range = KeyRange::new(start, end)?;
    if !is_parent(parent) {
        return Err(Refusal::InvalidParent);
    }
    write_segment_topic(&parent[name_parents::SCHEME..], range, id, out)
}
