// Protocol Buffers fields written into a slice: sizes first, then bytes at a place.
//
// All functions are helpers: the caller tests the room by the sizes and shows that the bytes fit.
#![tactic(auto)]

ghost use Rattle.std.specs.Prelude.{◌≡◌, ◌+◌, ◌*◌, ◌≤◌, ◌<◌, ◌^◌, length};
ghost use Rattle.slice_int.specs.Put.{put};
ghost use Rattle.wire_writer.specs.Encode.{varint_bytes, number_field, part_head};

// How many bytes the varint of v has.
pub fn varint_size(v: u64) -> usize
    ensures { result ≡ length (varint_bytes v) }
{
    let mut n: usize = 1;
    let mut rest = v;
    while 128 <= rest {
        rest /= 128;
        n += 1;
    }
    n
}

// How many bytes field f with the number v has.
pub fn number_size(f: u64, v: u64) -> usize
    requires { 8 * f < 2 ^ 64 }
    ensures { result ≡ length (number_field f v) }
{
    varint_size(8 * f) + varint_size(v)
}

// How many bytes stand before a part of n bytes in field f.
pub fn part_head_size(f: u64, n: usize) -> usize
    requires { 8 * f + 2 < 2 ^ 64 }
    ensures { result ≡ length (part_head f n) }
{
    varint_size(8 * f + 2) + varint_size(n as u64)
}

// Writes v as a varint from the place at on, and answers the place behind it.
pub fn write_varint(out: &mut [u8], at: usize, v: u64) -> usize
    requires { at + length (varint_bytes v) ≤ length out.old }
    ensures { (result ≡ at + length (varint_bytes v)) × (out.new ≡ put out.old at (varint_bytes v)) }
{
    let mut i = at;
    let mut rest = v;
    while 128 <= rest {
        out[i] = (rest % 128 + 128) as u8;
        rest /= 128;
        i += 1;
    }
    out[i] = rest as u8;
    i + 1
}

// Writes field f with the number v from the place at on, and answers the place behind it.
pub fn write_number(out: &mut [u8], at: usize, f: u64, v: u64) -> usize
    requires { (8 * f < 2 ^ 64) × (at + length (number_field f v) ≤ length out.old) }
    ensures { (result ≡ at + length (number_field f v)) × (out.new ≡ put out.old at (number_field f v)) }
{
    let next = write_varint(out, at, 8 * f);
    write_varint(out, next, v)
}

// Writes the key and the length of a part of n bytes in field f from the place at on, and answers the place behind them, where the part goes.
pub fn write_part_head(out: &mut [u8], at: usize, f: u64, n: usize) -> usize
    requires { (8 * f + 2 < 2 ^ 64) × (at + length (part_head f n) ≤ length out.old) }
    ensures { (result ≡ at + length (part_head f n)) × (out.new ≡ put out.old at (part_head f n)) }
{
    let next = write_varint(out, at, 8 * f + 2);
    write_varint(out, next, n as u64)
}
