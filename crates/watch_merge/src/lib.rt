// Changes a packed set in place: the topics of a packed list taken out of it, or merged into it. Each goes once through both.
#![tactic(auto)]

ghost use Rattle.std.specs.Prelude.{◌≡◌, cond, ◌+◌, ◌≤◌, length, take};
ghost use Rattle.slice_int.specs.Put.{put};
ghost use Rattle.watch_topics.specs.Topics.{insert_all};
ghost use Rattle.watch_topics.specs.Packed.{decode_topics, encode_topics, size_topics};
ghost use Rattle.watch_merge.specs.Merge.{without, Apart, Rises};

use watch_topics::LENGTH;

// z bytes are passed over where the topic is present.
fn skip(present: bool, z: usize) -> usize
    ensures { result ≡ cond present z 0 }
{
    if present { z } else { 0 }
}

// The set b without the topics of a packed list. Answers its length.
pub fn take_out(b: &mut [u8], gone: &[u8]) -> usize
    requires { Rises b.old × Rises gone.now }
    ensures { (result ≡ size_topics (without (decode_topics b.old) (decode_topics gone.now)))
        × (b.new ≡ put b.old 0 (encode_topics (without (decode_topics b.old) (decode_topics gone.now)))) }
{
    let mut to: usize = 0;
    let mut from: usize = 0;
    let mut at: usize = 0;
    while at < gone.len() {
        let n = slice_int::read_u16(gone, at) as usize;
        let end = at + LENGTH + n;
        let place = watch_topics::seek(&b[from..], &gone[at + LENGTH..end]);
        slice_moves::move_down(b, from, to, place.at);
        to += place.at;
        from += place.at + skip(place.present, LENGTH + n);
        at = end;
    }
    let rest = b.len() - from;
    slice_moves::move_down(b, from, to, rest);
    to + rest
}

// The topics of a packed list merged into the set of `used` bytes at the front of b. Answers its length.
pub fn merge(b: &mut [u8], used: usize, new: &[u8]) -> usize
    requires in_bounds { used + length new.now ≤ length b.old }
    requires rises { Rises (take used b.old) × Rises new.now }
    requires apart { Apart (decode_topics new.now) (decode_topics (take used b.old)) }
    ensures { (result ≡ used + length new.now)
        × (b.new ≡ put b.old 0 (encode_topics (insert_all (decode_topics new.now) (decode_topics (take used b.old))))) }
{
    let z = new.len();
    let end = used + z;
    slice_moves::move_up(b, 0, used, z);
    let mut to: usize = 0;
    let mut from = z;
    let mut at: usize = 0;
    while at < z {
        let n = slice_int::read_u16(new, at) as usize;
        let next = at + LENGTH + n;
        let place = watch_topics::seek(&b[from..end], &new[at + LENGTH..next]);
        slice_moves::move_down(b, from, to, place.at);
        to += place.at;
        from += place.at;
        slice_int::put_bytes(b, to, &new[at..next]);
        to += LENGTH + n;
        at = next;
    }
    end
}
