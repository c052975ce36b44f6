// Parts of byte slices: equality, prefixes, and a byte as a wider number.
//
// The laws that every reader of a slice needs stand in proofs/: what `&s[at..]` is as a list, bytes below 256.
#![tactic(auto)]

ghost use Rattle.std.specs.Prelude.{◌≡◌, ◌+◌, ◌≤◌, ◌<◌, length, take, drop};
ghost use Rattle.slice.specs.Same.{same_bytes, starts_with};

// The n bytes of the two parts from the place at on are the same. They are counted with no way out of the loop: where n is 4 or 8 the compiler makes one comparison
// of it.
fn same_at(a: &[u8], b: &[u8], at: usize, n: usize) -> bool
    requires { (at + n ≤ length a.now) × (at + n ≤ length b.now) }
    ensures { result ≡ same_bytes (take n (drop at a.now)) (take n (drop at b.now)) }
{
    let mut alike: usize = 0;
    let mut i: usize = 0;
    while i < n {
        if a[at + i] == b[at + i] {
            alike += 1;
        }
        i += 1;
    }
    alike == n
}

// The two parts, of one length, hold the same bytes: n at a time, and the last n once more where fewer are left.
fn same_by(a: &[u8], b: &[u8], n: usize) -> bool
    requires { (0 < n) × (n ≤ length a.now) × (length a.now ≡ length b.now) }
    ensures { result ≡ same_bytes a.now b.now }
{
    let last = a.len() - n;
    let mut i: usize = 0;
    while i < last {
        if !same_at(a, b, i, n) {
            return false;
        }
        i += n;
    }
    same_at(a, b, last, n)
}

// The two parts hold the same bytes.
pub fn same(a: &[u8], b: &[u8]) -> bool
    ensures { result ≡ same_bytes a.now b.now }
{
    if a.len() != b.len() {
        return false;
    }
    if a.len() == 0 {
        return true;
    }
    if a.len() < 4 {
        return same_by(a, b, 1);
    }
    if a.len() < 8 {
        return same_by(a, b, 4);
    }
    same_by(a, b, 8)
}

// The part s starts with the bytes of prefix.
pub fn starts_with(s: &[u8], prefix: &[u8]) -> bool
    ensures { result ≡ starts_with prefix.now s.now }
{
    let n = prefix.len();
    n <= s.len() && same(&s[..n], prefix)
}

// The byte as a wider number.
pub fn wide(x: u8) -> u64
    ensures value { result ≡ x }
    ensures upper_bound { result < 256 }
{
    x as u64
}
