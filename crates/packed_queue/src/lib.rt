// Lists queued closely, one behind the other, each behind its length (02 j), read where they lie.
//
// `read_entries` tests them and finds their end in one pass.
#![tactic(auto)]

ghost use Rattle.std.specs.Prelude.{◌≡◌, ◌≤◌, length, drop};
ghost use Rattle.packed_queue.specs.Answers.{entry_size, entries_read};

// Bytes of an entry before its list: the list's length.
pub const LENGTH: usize = 2;

// The size of the entry at a place, its length and its list together; 0 where there is none.
fn entry_size(s: &[u8], at: usize) -> usize
    requires { at ≤ length s.now }
    ensures { result ≡ entry_size (drop at s.now) }
{
    if s.len() - at < LENGTH {
        return 0;
    }
    let len = slice_int::read_u16(s, at) as usize;
    let from = at + LENGTH;
    if s.len() - from < len {
        return 0;
    }
    if packed::is_whole(&s[from..from + len]) {
        LENGTH + len
    } else {
        0
    }
}

// The place behind the last of the n entries that s starts with; None where they are malformed.
pub fn read_entries(s: &[u8], n: usize) -> Option<usize>
    ensures { result ≡ entries_read n s.now }
{
    let mut at: usize = 0;
    for _ in 0..n {
        let size = entry_size(s, at);
        if size == 0 {
            return None;
        }
        at += size;
    }
    Some(at)
}
