// Buffers that are lent to the calls: their fronts, and whether the rest of them stayed as it was.
ghost use Rattle.std.specs.Prelude.{◌≡◌, length};

// The most bytes of an argument, and of an output: a topic of 65,536 bytes and what stands around it.
pub const ROOM: usize = 66560;

// What every byte of an output is before a call.
pub const FILL: u8 = 0xaa;

// A buffer of bytes that are all the same. Its length is promised: a proof that meets the array itself would count it out.
pub fn filled(b: u8) -> [u8; ROOM]
    ensures { 66560 ≡ length result }
{
    [b; ROOM]
}

// The first n bytes of a slice, all of them where there are fewer.
pub fn front(s: &[u8], n: usize) -> &[u8] {
    if n <= s.len() { &s[..n] } else { s }
}

// The same, to be written to.
pub fn front_mut(s: &mut [u8], n: usize) -> &mut [u8] {
    if n <= s.len() { &mut s[..n] } else { s }
}

// The bytes of a slice from a place on are as they were.
pub fn stay(from: usize, before: &[u8], s: &[u8]) -> bool {
    s.len() <= from || (s.len() <= before.len() && slice::same(&s[from..], &before[from..s.len()]))
}

// The bytes of an output from a place on are as they were.
pub fn blank(from: usize, out: &[u8]) -> bool {
    let before = filled(FILL);
    stay(from, &before, out)
}
