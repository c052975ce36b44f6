// Numbers of 2, 4 and 8 bytes in a slice, most significant byte first, and bytes written at a place; and the smaller or larger of two numbers.
//
// The caller shows that the bytes lie inside the slice. A number is one of fewer bytes and another behind it, so one law,
// over the two widths, serves each of them (proofs/BeLaws).
#![tactic(auto)]

ghost use Rattle.std.specs.Prelude.{◌≡◌, ◌+◌, ◌≤◌, min, max, length};
ghost use Rattle.slice_int.specs.Be.{be_at, bytes_of};
ghost use Rattle.slice_int.specs.Put.{put};

// The 2 bytes from the place at on.
pub fn read_u16(s: &[u8], at: usize) -> u16
    requires { at + 2 ≤ length s.now }
    ensures { result ≡ be_at 2 s.now at }
{
    (s[at] as u16) * 256 + (s[at + 1] as u16)
}

// The 4 bytes from the place at on.
pub fn read_u32(s: &[u8], at: usize) -> u32
    requires { at + 4 ≤ length s.now }
    ensures { result ≡ be_at 4 s.now at }
{
    (read_u16(s, at) as u32) * 65536 + (read_u16(s, at + 2) as u32)
}

// The 8 bytes from the place at on, two at a time: the compiler makes one read of it.
pub fn read_u64(s: &[u8], at: usize) -> u64
    requires { at + 8 ≤ length s.now }
    ensures { result ≡ be_at 8 s.now at }
{
    let two = read_u16(s, at) as u64;
    let four = two * 65536 + (read_u16(s, at + 2) as u64);
    let six = four * 65536 + (read_u16(s, at + 4) as u64);
    six * 65536 + (read_u16(s, at + 6) as u64)
}

// Writes v as 2 bytes from the place at on.
pub fn write_u16(out: &mut [u8], at: usize, v: u16)
    requires { at + 2 ≤ length out.old }
    ensures { out.new ≡ put out.old at (bytes_of 2 v) }
{
    out[at] = (v / 256) as u8;
    out[at + 1] = (v % 256) as u8;
}

// Writes v as 4 bytes from the place at on.
pub fn write_u32(out: &mut [u8], at: usize, v: u32)
    requires { at + 4 ≤ length out.old }
    ensures { out.new ≡ put out.old at (bytes_of 4 v) }
{
    write_u16(out, at, (v / 65536) as u16);
    write_u16(out, at + 2, (v % 65536) as u16);
}

// Writes v as 8 bytes from the place at on.
pub fn write_u64(out: &mut [u8], at: usize, v: u64)
    requires { at + 8 ≤ length out.old }
    ensures { out.new ≡ put out.old at (bytes_of 8 v) }
{
    write_u32(out, at, (v / 4294967296) as u32);
    write_u32(out, at + 4, (v % 4294967296) as u32);
}

// Writes the bytes of src from the place at on.
pub fn put_bytes(out: &mut [u8], at: usize, src: &[u8])
    requires { at + length src.now ≤ length out.old }
    ensures { out.new ≡ put out.old at src.now }
{
    let mut i: usize = 0;
    while i < src.len() {
        out[at + i] = src[i];
        i += 1;
    }
}

// The smaller of two lengths or places.
pub fn min_usize(m: usize, n: usize) -> usize
    ensures { result ≡ min m n }
{
    if m < n { m } else { n }
}

// The smaller of two numbers.
pub fn min_u64(a: u64, b: u64) -> u64
    ensures { result ≡ min a b }
{
    if a < b { a } else { b }
}

// The larger of two numbers.
pub fn max_u64(a: u64, b: u64) -> u64
    ensures { result ≡ max a b }
{
    if a < b { b } else { a }
}
