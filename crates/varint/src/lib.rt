// Varints: their length, writing and reading.
#![tactic(auto)]

ghost use Rattle.std.specs.Prelude.{◌≡◌, ◌^◌, ◌≤◌, ◌<◌, length};
ghost use Rattle.limits.specs.Figures.{most_varint};
ghost use Rattle.octets.specs.inner.Laid.{Laid};
ghost use Rattle.varint.specs.Varint.{varint as varint_of, varint_at};

use limits::MOST_VARINT;

// A varint that was read: its value, and the place after its last byte.
#[derive(Clone, Copy)]
pub struct Read {
    pub value: u64,
    pub next: usize,
}

// How many bytes the shortest varint of v has. A byte holds seven bits, so that below 128^n a varint has at most n bytes: the limits are the
// powers 1 to 9 of 128.
#[tactic(auto, using(crate::proofs::VarintLength::varint_lengths))]
pub fn varint_len(v: u64) -> usize
    ensures { (result ≡ length (varint_of v)) × (result ≤ most_varint) }
{
    if v < 128 {
        return 1;
    }
    if v < 16_384 {
        return 2;
    }
    if v < 2_097_152 {
        return 3;
    }
    if v < 268_435_456 {
        return 4;
    }
    if v < 34_359_738_368 {
        return 5;
    }
    if v < 4_398_046_511_104 {
        return 6;
    }
    if v < 562_949_953_421_312 {
        return 7;
    }
    if v < 72_057_594_037_927_936 {
        return 8;
    }
    if v < 9_223_372_036_854_775_808 {
        return 9;
    }
    10
}

// The shortest varint of v from a place on, as far as there is room, and the place after it.
#[tactic(auto, using(crate::proofs::VarintLoops::writing_laws))]
pub fn put_varint(out: &mut [u8], at: usize, v: u64) -> usize
    requires { at < 2 ^ 63 }
    ensures { Laid out.old at (varint_of v) out.new result }
{
    let mut x = v;
    let mut i = at;
    while 128 <= x {
        octets::put(out, i, (128 + x % 128) as u8);
        x /= 128;
        i += 1;
    }
    octets::put(out, i, x as u8);
    i + 1
}

// The varint between two places that starts at the first.
#[tactic(auto, using(crate::proofs::VarintReading::reading_laws))]
pub fn varint_at(s: &[u8], at: usize, end: usize) -> Option<Read>
    requires { (at ≤ end) × (end ≤ length s.now) }
    ensures { result ≡ varint_at s.now at end }
{
    let mut value: u64 = 0;
    let mut scale: u64 = 1;
    let mut more = MOST_VARINT - 1;
    for i in at..end {
        let b = octets::byte_at(s, i) as u64;
        if more == 0 {
            if b < 2 {
                return Some(Read {
                    value: value + b * scale,
                    next: i + 1,
                });
            }
            return None;
        }
        if b < 128 {
            return Some(Read {
                value: value + b * scale,
                next: i + 1,
            });
        }
        value += b % 128 * scale;
        scale *= 128;
        more -= 1;
    }
    None
}
