// Writing into lent bytes.
ghost use Rattle.std.specs.Prelude.{◌≡◌, ◌≤◌, ◌++◌, length, drop, set, replicate};
ghost use Rattle.blocks.specs.Bytes.{little_endian};

// The byte at i becomes x; past the end nothing changes.
pub fn store(v: &mut [u8], i: usize, x: u8)
    ensures { v.new ≡ set v.old i x }
{
    if i < v.len() {
        v[i] = x;
    }
}

// The first bytes of dst become src.
pub fn copy(dst: &mut [u8], src: &[u8])
    requires { length src.now ≤ length dst.old }
    ensures { dst.new ≡ src.now ++ drop (length src.now) dst.old }
{
    dst[..src.len()].copy_from_slice(src);
}

// All bytes become zero.
pub fn clear(dst: &mut [u8])
    ensures { dst.new ≡ replicate (length dst.old) 0 }
{
    dst.fill(0);
}

// The first bytes of dst become the lowest bytes of x.
pub fn put_number(dst: &mut [u8], bytes: usize, x: u64)
    requires { bytes ≤ length dst.old }
    ensures { dst.new ≡ little_endian bytes x ++ drop bytes dst.old }
{
    let mut rest = x;
    for place in dst[..bytes].iter_mut() {
        *place = (rest % 256) as u8;
        rest /= 256;
    }
}
