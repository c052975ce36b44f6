// Topics in byte order, and a packed set of them: each topic a length of 16 bits and its bytes.
#![tactic(auto)]

ghost use Rattle.std.specs.Prelude.{◌≡◌, true, ◌&&◌, ◌+◌, ◌-◌, ◌≤◌, min, length, take, drop};
ghost use Rattle.std.specs.declared.cmp.Ordering.TheVariants.{Less};
ghost use Rattle.watch_topics.specs.Topics.{order, before, rising};
ghost use Rattle.watch_topics.specs.Skipped.{Skipped};
ghost use Rattle.watch_topics.specs.Packed.{decode_topics, is_whole, all_utf8, is_set, topic_place};

use std::cmp::Ordering;

// The bytes of a topic's length, before the topic; of the longest topic that it can tell.
pub const LENGTH: usize = 2;

pub const MAX_TOPIC: usize = 65535;

// Where a topic stands in a packed set, or would stand.
#[derive(Clone, Copy)]
pub struct Place {
    pub at: usize,
    pub present: bool,
}

// How a stands to b in byte order, byte by byte.
fn compare_bytes(a: &[u8], b: &[u8]) -> Ordering
    ensures { result ≡ order a.now b.now }
{
    let mut i: usize = 0;
    while i < a.len() {
        if b.len() <= i {
            return Ordering::Greater;
        }
        let x = a[i];
        let y = b[i];
        if x < y {
            return Ordering::Less;
        }
        if y < x {
            return Ordering::Greater;
        }
        i += 1;
    }
    if i < b.len() {
        Ordering::Less
    } else {
        Ordering::Equal
    }
}

// How a stands to b in byte order, by the last word of the shorter one, whose n bytes are alike before it, and by the lengths.
fn compare_end(a: &[u8], b: &[u8], n: usize) -> Ordering
    requires le_n { (8 ≤ n) × (n ≡ min (length a.now) (length b.now)) }
    requires a_value { take (n - 8) a.now ≡ take (n - 8) b.now }
    ensures { result ≡ order a.now b.now }
{
    let x = slice_int::read_u64(a, n - 8);
    let y = slice_int::read_u64(b, n - 8);
    if x != y {
        return x.cmp(&y);
    }
    a.len().cmp(&b.len())
}

// A place up to which both are alike: the first word that differs, or `last`. The words are compared for equality alone, which needs no order of their bytes.
fn alike(a: &[u8], b: &[u8], last: usize) -> usize
    requires { (last + 8 ≤ length a.now) × (last + 8 ≤ length b.now) }
    ensures { (result ≤ last) × (take result a.now ≡ take result b.now) }
{
    let mut at: usize = 0;
    while at < last {
        let x = slice_int::read_u64(a, at);
        let y = slice_int::read_u64(b, at);
        if x != y {
            return at;
        }
        at += 8;
    }
    last
}

// How a stands to b in byte order. Of two words, most significant byte first, the lower one stands first; bytes that do not fill a word are
// compared with those before them, which are alike.
pub fn compare(a: &[u8], b: &[u8]) -> Ordering
    ensures { result ≡ order a.now b.now }
{
    let n = a.len().min(b.len());
    if n < 8 {
        return compare_bytes(a, b);
    }
    let mut i = alike(a, b, n - 8);
    while 8 <= n - i {
        let x = slice_int::read_u64(a, i);
        let y = slice_int::read_u64(b, i);
        if x != y {
            return x.cmp(&y);
        }
        i += 8;
    }
    compare_end(a, b, n)
}

// Whether a stands before b.
pub fn is_before(a: &[u8], b: &[u8]) -> bool
    ensures { result ≡ before a.now b.now }
{
    compare(a, b).is_lt()
}

// Whether a stands before b by a word: where it does not, nothing is told.
fn is_before_by_word(a: &[u8], b: &[u8]) -> bool
    ensures { result ≡ true → order a.now b.now ≡ Less }
{
    let n = a.len().min(b.len());
    if n < 8 {
        return false;
    }
    let i = alike(a, b, n - 8);
    slice_int::read_u64(a, i) < slice_int::read_u64(b, i)
}

// Whether a topic stands before the next one of a set: mostly a word tells.
fn is_before_next(a: &[u8], b: &[u8]) -> bool
    ensures { result ≡ before a.now b.now }
{
    is_before_by_word(a, b) || is_before(a, b)
}

// The lengths lead to the end of the slice, and each topic is UTF-8, topic by topic.
fn is_utf8_list(s: &[u8]) -> bool
    ensures { result ≡ (is_whole s.now && all_utf8 (decode_topics s.now)) }
{
    let mut at: usize = 0;
    while at < s.len() {
        if s.len() - at < LENGTH {
            return false;
        }
        let n = slice_int::read_u16(s, at) as usize;
        if s.len() - at - LENGTH < n {
            return false;
        }
        let from = at + LENGTH;
        let end = from + n;
        if !utf8::is_utf8(&s[from..end]) {
            return false;
        }
        at = end;
    }
    true
}

// The lengths lead to the end of the slice.
fn is_whole(s: &[u8]) -> bool
    ensures { result ≡ is_whole s.now }
{
    let mut at: usize = 0;
    while at < s.len() {
        if s.len() - at < LENGTH {
            return false;
        }
        let n = slice_int::read_u16(s, at) as usize;
        if s.len() - at - LENGTH < n {
            return false;
        }
        at += LENGTH + n;
    }
    true
}

// The lengths lead to the end of the slice, and each topic is UTF-8. Where all bytes are ASCII, those of the lengths too, no topic is looked at
// by itself.
fn is_list(s: &[u8]) -> bool
    ensures { result ≡ (is_whole s.now && all_utf8 (decode_topics s.now)) }
{
    if utf8::all_ascii(s) {
        is_whole(s)
    } else {
        is_utf8_list(s)
    }
}

// Each topic of a packed list stands before the next.
fn is_rising(s: &[u8]) -> bool
    requires { is_whole s.now ≡ true }
    ensures { result ≡ rising (decode_topics s.now) }
{
    let mut at: usize = 0;
    while at < s.len() {
        let n = slice_int::read_u16(s, at) as usize;
        let from = at + LENGTH;
        let end = from + n;
        if end < s.len() {
            let m = slice_int::read_u16(s, end) as usize;
            let next = end + LENGTH;
            if !is_before_next(&s[from..end], &s[next..next + m]) {
                return false;
            }
        }
        at = end;
    }
    true
}

// The bytes are a packed set.
pub fn is_set(s: &[u8]) -> bool
    ensures { result ≡ is_set s.now }
{
    is_list(s) && is_rising(s)
}

// Where a topic stands in a packed set.
pub fn find(s: &[u8], t: &[u8]) -> Place
    requires { is_whole s.now ≡ true }
    ensures { result ≡ topic_place t.now 0 (decode_topics s.now) }
{
    let mut at: usize = 0;
    while at < s.len() {
        let n = slice_int::read_u16(s, at) as usize;
        let from = at + LENGTH;
        let end = from + n;
        match compare(t, &s[from..end]) {
            Ordering::Less => {
                return Place { at, present: false };
            }
            Ordering::Equal => {
                return Place { at, present: true };
            }
            Ordering::Greater => {
                at = end;
            }
        }
    }
    Place { at, present: false }
}

// The place behind the next n topics, or the end of the list.
fn skip(s: &[u8], from: usize, n: usize) -> usize
    requires { (from ≤ length s.now) × (is_whole (drop from s.now) ≡ true) }
    ensures { Skipped s.now from result }
{
    let mut at = from;
    for _ in 0..n {
        if s.len() <= at {
            return at;
        }
        let z = slice_int::read_u16(s, at) as usize;
        at += LENGTH + z;
    }
    at
}

// Where a topic stands among those from the place low to the place high.
fn find_between(s: &[u8], t: &[u8], low: usize, high: usize) -> Place
    requires low_le_high { (low ≤ high) × (high ≤ length s.now) }
    requires s_value { is_whole (take (high - low) (drop low s.now)) ≡ true }
    ensures { result ≡ topic_place t.now low (decode_topics (take (high - low) (drop low s.now))) }
{
    let p = find(&s[low..high], t);
    Place {
        at: low + p.at,
        present: p.present,
    }
}

// Twice as far, up to a limit.
fn farther(reach: usize) -> usize {
    if reach < 1024 { 2 * reach } else { reach }
}

// Where a topic stands in a packed set. After some topics that stand before it, more and more are passed over by their lengths alone, up to 32
// at once; when that goes too far, it is found among the last that were.
pub fn seek(s: &[u8], t: &[u8]) -> Place
    requires { (is_whole s.now ≡ true) × (rising (decode_topics s.now) ≡ true) }
    ensures { result ≡ topic_place t.now 0 (decode_topics s.now) }
{
    let mut low: usize = 0;
    let mut reach: usize = 1;
    loop {
        let at = skip(s, low, reach / 32);
        if s.len() <= at {
            return find_between(s, t, low, at);
        }
        let n = slice_int::read_u16(s, at) as usize;
        let from = at + LENGTH;
        let end = from + n;
        match compare(t, &s[from..end]) {
            Ordering::Less => {
                return find_between(s, t, low, at);
            }
            Ordering::Equal => {
                return Place { at, present: true };
            }
            Ordering::Greater => {
                low = end;
                reach = farther(reach);
            }
        }
    }
}
