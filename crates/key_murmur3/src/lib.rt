// MurmurHash3_x86_32 with seed 0, over a key of any bytes.
//
// A word is a u32. Products and sums wrap, as in the published C: `wrapping_mul` and `std::num::wrapping_add_u32`.
#![tactic(auto)]

ghost use Rattle.std.specs.Prelude.{◌≡◌, ◌+◌, ◌*◌, ◌%◌, ◌^◌, ◌<◌, ◌≤◌, length, take, drop, slice_index};
ghost use Rattle.key_murmur3.specs.Words.{rotate_left, xor_shift};
ghost use Rattle.key_murmur3.specs.Murmur3.{low_first, scramble, mix, fmix, murmur3};

// The low 32 bits of the product.
pub fn wrapping_mul(a: u32, b: u32) -> u32
    ensures { result ≡ (a * b) % 2 ^ 32 }
{
    ((a as u64) * (b as u64) % 4294967296) as u32
}

// x rotated left by r bits.
pub fn rotate_left(x: u32, r: u32) -> u32
    requires { (0 < r) × (r < 32) }
    ensures { result ≡ rotate_left x r }
{
    (x << r) | (x >> (32 - r))
}

// x ^ (x >> k).
pub fn xor_shift(x: u32, k: u32) -> u32
    requires { k < 32 }
    ensures { result ≡ xor_shift x k }
{
    x ^ (x >> k)
}

// A block, or the tail, as it goes into the hash.
fn scramble(k: u32) -> u32
    ensures { result ≡ scramble k }
{
    wrapping_mul(rotate_left(wrapping_mul(k, 0xcc9e2d51), 15), 0x1b873593)
}

// The hash h with the block k mixed in.
fn mix(h: u32, k: u32) -> u32
    ensures { result ≡ mix h k }
{
    let turned = rotate_left(h ^ scramble(k), 13);
    std::num::wrapping_add_u32(wrapping_mul(turned, 5), 0xe6546b64)
}

// The last steps: every bit of h spread over the result.
fn fmix(h: u32) -> u32
    ensures { result ≡ fmix h }
{
    let first = wrapping_mul(xor_shift(h, 16), 0x85ebca6b);
    let second = wrapping_mul(xor_shift(first, 13), 0xc2b2ae35);
    xor_shift(second, 16)
}

// The byte at a place.
fn byte_at(s: &[u8], i: usize) -> u32
    requires { i < length s.now }
    ensures { (result ≡ slice_index s.now i) × (result < 256) }
{
    s[i] as u32
}

// The block in the 4 bytes from a place on, low byte first.
fn block_at(s: &[u8], at: usize) -> u32
    requires { at + 4 ≤ length s.now }
    ensures { result ≡ low_first (take 4 (drop at s.now)) }
{
    let low = byte_at(s, at) + 256 * byte_at(s, at + 1);
    low + 65536 * byte_at(s, at + 2) + 16777216 * byte_at(s, at + 3)
}

// The one to three bytes from a place on, low byte first.
fn tail_at(s: &[u8], at: usize) -> u32
    requires { (at < length s.now) × (length s.now < at + 4) }
    ensures { result ≡ low_first (drop at s.now) }
{
    let first = byte_at(s, at);
    if s.len() == at + 1 {
        return first;
    }
    let second = byte_at(s, at + 1);
    if s.len() == at + 2 {
        return first + 256 * second;
    }
    first + 256 * second + 65536 * byte_at(s, at + 2)
}

// The hash of a key.
pub fn hash(key: &[u8]) -> u32
    ensures { result ≡ murmur3 key.now }
{
    let mut h: u32 = 0;
    let mut at: usize = 0;
    while 4 <= key.len() - at {
        h = mix(h, block_at(key, at));
        at += 4;
    }
    if at < key.len() {
        h ^= scramble(tail_at(key, at));
    }
    fmix(h ^ ((key.len() % 4294967296) as u32))
}
