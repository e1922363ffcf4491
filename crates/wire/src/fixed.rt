// Numbers of a fixed width, the lowest byte first.
ghost use Rattle.std.specs.Prelude.{◌≡◌, ◌+◌, ◌^◌, ◌≤◌, ◌<◌, length};
ghost use Rattle.octets.specs.Octets.{part};
ghost use Rattle.octets.specs.inner.Laid.{Laid};
ghost use Rattle.wire.specs.Fixed.{little_of, little};

// The lowest `width` bytes of v from a place on, as far as there is room, and the place after them.
#[tactic(auto, using(crate::proofs::FixedLoops::filling_laws), unfolding(crate::specs::Fixed::little_of))]
fn put_little(out: &mut [u8], at: usize, v: u64, width: usize) -> usize
    requires { (at < 2 ^ 63) × (width ≤ 8) }
    ensures { Laid out.old at (little_of width v) out.new result }
{
    let mut x = v;
    for i in 0..width {
        octets::put(out, at + i, (x % 256) as u8);
        x /= 256;
    }
    at + width
}

// The number of the `width` bytes at a place.
#[tactic(auto, using(crate::proofs::FixedLoops::summing_laws))]
fn little_at(s: &[u8], at: usize, width: usize) -> u64
    requires { (at + width ≤ length s.now) × (width ≤ 8) }
    ensures { (result ≡ little (part s.now at (at + width))) × (result < 256 ^ width) }
{
    let mut n: u64 = 0;
    for i in (0..width).rev() {
        n = n * 256 + (octets::byte_at(s, at + i) as u64);
    }
    n
}

pub fn put_fixed32(out: &mut [u8], at: usize, v: u32) -> usize
    requires { at < 2 ^ 63 }
    ensures { Laid out.old at (little_of 4 v) out.new result }
{
    put_little(out, at, v as u64, 4)
}

pub fn put_fixed64(out: &mut [u8], at: usize, v: u64) -> usize
    requires { at < 2 ^ 63 }
    ensures { Laid out.old at (little_of 8 v) out.new result }
{
    put_little(out, at, v, 8)
}

pub fn fixed32_at(s: &[u8], at: usize) -> u32
    requires { at + 4 ≤ length s.now }
    ensures { result ≡ little (part s.now at (at + 4)) }
{
    little_at(s, at, 4) as u32
}

pub fn fixed64_at(s: &[u8], at: usize) -> u64
    requires { at + 8 ≤ length s.now }
    ensures { result ≡ little (part s.now at (at + 8)) }
{
    little_at(s, at, 8)
}
