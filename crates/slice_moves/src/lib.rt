// Bytes moved within a slice, down or up, where the old place and the new one may overlap.
//
// 32 bytes at a time, then 8, each one load and one store, and what is left byte by byte. All functions are helpers: the caller shows that both places lie in the slice.
#![tactic(auto)]

ghost use Rattle.std.specs.Prelude.{◌≡◌, ◌+◌, ◌-◌, ◌≤◌, length, take, drop};
ghost use Rattle.slice_int.specs.Put.{put};
ghost use Rattle.slice_moves.specs.Moved.{Lowered, Raised};

// Moves 32 bytes from one place to another. All are read before one is written, so that a machine may move many at once.
fn move_block(b: &mut [u8], from: usize, to: usize)
    requires { (from + 32 ≤ length b.old) × (to + 32 ≤ length b.old) }
    ensures { b.new ≡ put b.old to (take 32 (drop from b.old)) }
{
    let w = slice_int::read_u64(b, from);
    let x = slice_int::read_u64(b, from + 8);
    let y = slice_int::read_u64(b, from + 16);
    let z = slice_int::read_u64(b, from + 24);
    slice_int::write_u64(b, to, w);
    slice_int::write_u64(b, to + 8, x);
    slice_int::write_u64(b, to + 16, y);
    slice_int::write_u64(b, to + 24, z);
}

// Moves blocks down, as many as there are in z bytes. Answers how many bytes were moved.
fn lower_blocks(b: &mut [u8], from: usize, to: usize, z: usize) -> usize
    requires { (to ≤ from) × (from + z ≤ length b.old) }
    ensures { Lowered b.old from to z b.new result }
{
    let mut i: usize = 0;
    while 32 <= z - i {
        move_block(b, from + i, to + i);
        i += 32;
    }
    i
}

// Moves words down, as many as there are in z bytes. Answers how many bytes were moved.
fn lower_words(b: &mut [u8], from: usize, to: usize, z: usize) -> usize
    requires { (to ≤ from) × (from + z ≤ length b.old) }
    ensures { Lowered b.old from to z b.new result }
{
    let mut i: usize = 0;
    while 8 <= z - i {
        let w = slice_int::read_u64(b, from + i);
        slice_int::write_u64(b, to + i, w);
        i += 8;
    }
    i
}

// z bytes from index from, moved down to index to one by one.
fn lower_bytes(b: &mut [u8], from: usize, to: usize, z: usize)
    requires { (to ≤ from) × (from + z ≤ length b.old) }
    ensures { b.new ≡ put b.old to (take z (drop from b.old)) }
{
    let mut i: usize = 0;
    while i < z {
        let v = b[from + i];
        b[to + i] = v;
        i += 1;
    }
}

// z bytes from index from, moved down to index to, by words.
fn lower_rest(b: &mut [u8], from: usize, to: usize, z: usize)
    requires { (to ≤ from) × (from + z ≤ length b.old) }
    ensures { b.new ≡ put b.old to (take z (drop from b.old)) }
{
    let i = lower_words(b, from, to, z);
    lower_bytes(b, from + i, to + i, z - i);
}

// z bytes from index from, moved down to index to.
pub fn move_down(b: &mut [u8], from: usize, to: usize, z: usize)
    requires { (to ≤ from) × (from + z ≤ length b.old) }
    ensures { b.new ≡ put b.old to (take z (drop from b.old)) }
{
    let i = lower_blocks(b, from, to, z);
    lower_rest(b, from + i, to + i, z - i);
}

// Moves blocks up by z, from the last on, as many as there are from index from to index to. Answers the index of the last one moved.
fn raise_blocks(b: &mut [u8], from: usize, to: usize, z: usize) -> usize
    requires { (from ≤ to) × (to + z ≤ length b.old) }
    ensures { Raised b.old from to z b.new result }
{
    let mut i = to;
    while 32 <= i - from {
        i -= 32;
        move_block(b, i, i + z);
    }
    i
}

// Moves words up by z, from the last on, as many as there are from index from to index to. Answers the index of the last one moved.
fn raise_words(b: &mut [u8], from: usize, to: usize, z: usize) -> usize
    requires { (from ≤ to) × (to + z ≤ length b.old) }
    ensures { Raised b.old from to z b.new result }
{
    let mut i = to;
    while 8 <= i - from {
        i -= 8;
        let w = slice_int::read_u64(b, i);
        slice_int::write_u64(b, i + z, w);
    }
    i
}

// The bytes from index from to index to, moved up by z one by one.
fn raise_bytes(b: &mut [u8], from: usize, to: usize, z: usize)
    requires { (from ≤ to) × (to + z ≤ length b.old) }
    ensures { b.new ≡ put b.old (from + z) (take (to - from) (drop from b.old)) }
{
    let mut i = to;
    while from < i {
        i -= 1;
        let v = b[i];
        b[i + z] = v;
    }
}

// The bytes from index from to index to, moved up by z, by words.
fn raise_rest(b: &mut [u8], from: usize, to: usize, z: usize)
    requires { (from ≤ to) × (to + z ≤ length b.old) }
    ensures { b.new ≡ put b.old (from + z) (take (to - from) (drop from b.old)) }
{
    let i = raise_words(b, from, to, z);
    raise_bytes(b, from, i, z);
}

// The bytes from index from to index to, moved up by z.
pub fn move_up(b: &mut [u8], from: usize, to: usize, z: usize)
    requires { (from ≤ to) × (to + z ≤ length b.old) }
    ensures { b.new ≡ put b.old (from + z) (take (to - from) (drop from b.old)) }
{
    let i = raise_blocks(b, from, to, z);
    raise_rest(b, from, i, z);
}
