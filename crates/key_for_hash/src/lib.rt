// A test key for a wanted hash: the four bytes whose MurmurHash3 is given.
//
// Every step of the hash of four bytes can be undone, the last first: a product by the multiplier's inverse, a rotation
// by the rest of the way round, `x ^ (x >> k)` from the high bits down.
#![tactic(auto)]

ghost use Rattle.std.specs.Prelude.{◌≡◌, ◌<◌};
ghost use Rattle.key_for_hash.specs.Inverse.{undo_shift, undo_fmix, undo_scramble, undo_mix, key_of_block, key_for_hash};

// A key of four bytes.
#[derive(Clone, Copy)]
pub struct TestKey {
    pub first: u8,
    pub second: u8,
    pub third: u8,
    pub fourth: u8,
}

// The word x with x ^ (x >> k) == y; k is 11 or more.
fn undo_shift(y: u32, k: u32) -> u32
    requires { k < 32 }
    ensures { result ≡ undo_shift y k }
{
    y ^ (key_murmur3::xor_shift(y, k) >> k)
}

// The word that key_murmur3::fmix takes to h.
fn undo_fmix(h: u32) -> u32
    ensures { result ≡ undo_fmix h }
{
    let second = key_murmur3::wrapping_mul(undo_shift(h, 16), 0x7ed1b41d);
    let first = key_murmur3::wrapping_mul(undo_shift(second, 13), 0xa5cb9243);
    undo_shift(first, 16)
}

// The word that key_murmur3::scramble takes to k.
fn undo_scramble(k: u32) -> u32
    ensures { result ≡ undo_scramble k }
{
    let turned = key_murmur3::rotate_left(key_murmur3::wrapping_mul(k, 0x56ed309b), 17);
    key_murmur3::wrapping_mul(turned, 0xdee13bb1)
}

// The block that key_murmur3::mix takes, with the hash 0, to h.
fn undo_mix(h: u32) -> u32
    ensures { result ≡ undo_mix h }
{
    let product = std::num::wrapping_add_u32(h, 0x19ab949c);
    undo_scramble(key_murmur3::rotate_left(key_murmur3::wrapping_mul(product, 0xcccccccd), 19))
}

// The four bytes of a block, low byte first.
fn key_of_block(k: u32) -> TestKey
    ensures { result ≡ key_of_block k }
{
    TestKey {
        first: (k % 256) as u8,
        second: (k / 256 % 256) as u8,
        third: (k / 65536 % 256) as u8,
        fourth: (k / 16777216) as u8,
    }
}

// The four bytes that have the hash h; no other four have it.
pub fn key_for_hash(h: u32) -> TestKey
    ensures { result ≡ key_for_hash h }
{
    key_of_block(undo_mix(undo_fmix(h) ^ 4))
}
