// Rounding to float and double, on bit patterns: to nearest, ties to even, overflow to infinity, any NaN to 7FC00000.
#![tactic(auto)]

ghost use Rattle.std.specs.Prelude.{◌≡◌, false, ◌*◌, ◌^◌, ◌≤◌, ◌<◌, pos};
ghost use Rattle.std.specs.Float.{binary32, binary64};
ghost use Rattle.std.specs.Float.Ieee.{of_fields, to_bits};
ghost use Rattle.std.specs.Float.Ieee.Nearest.{closest};
ghost use Rattle.round.specs.Rounding.{signed_of, int_bits, narrow, narrow_bits};

// m / 2^k to the nearest whole number, a tie to the even one.
#[tactic(auto, using(crate::proofs::Closest::shift_laws))]
fn round_shift(m: u64, k: u32) -> u64
    requires { (0 < k) × (k < 64) }
    ensures { result ≡ closest m (2 ^ k) }
{
    let p = 1u64 << k;
    let q = m / p;
    let r = m % p;
    let rest = p - r;
    if r < rest {
        return q;
    }
    if r == rest {
        return q + q % 2;
    }
    q + 1
}

// The shift that brings v's top bit to bit 63.
#[tactic(auto, using(crate::proofs::Integers::norm_laws))]
fn norm_shift(v: u64) -> u32
    requires { 0 < v }
    ensures { (result < 64) × (2 ^ 63 ≤ v * 2 ^ result) × (v * 2 ^ result < 2 ^ 64) }
{
    u64::leading_zeros(v)
}

// The bits of the float nearest to v.
#[tactic(auto, using(crate::proofs::Integers::int_laws))]
pub fn u64_to_f32_bits(v: u64) -> u32
    ensures { (result ≡ int_bits binary32 (pos v)) × (result < 2 ^ 31) }
{
    if v == 0 {
        return 0;
    }
    let z = norm_shift(v);
    let m = v << z;
    let q = round_shift(m, 40);
    (189 - z) * 0x80_0000 + q as u32
}

// The bits of the double nearest to v.
#[tactic(auto, using(crate::proofs::Integers::int_laws))]
pub fn u64_to_f64_bits(v: u64) -> u64
    ensures { (result ≡ int_bits binary64 (pos v)) × (result < 2 ^ 63) }
{
    if v == 0 {
        return 0;
    }
    let z = norm_shift(v);
    let m = v << z;
    let q = round_shift(m, 11);
    ((1085 - z) as u64) * 0x10_0000_0000_0000 + q
}

// The bits of the float nearest to an integer, which is given by its sign and its size. Minus nothing is plus zero.
#[tactic(auto, using(crate::proofs::Integers::sign_laws))]
pub fn int_to_f32_bits(minus: bool, size: u64) -> u32
    ensures { result ≡ int_bits binary32 (signed_of minus size) }
{
    let bits = u64_to_f32_bits(size);
    if minus {
        if size == 0 {
            return bits;
        }
        return 0x8000_0000 + bits;
    }
    bits
}

// The bits of the double nearest to an integer, likewise.
#[tactic(auto, using(crate::proofs::Integers::sign_laws))]
pub fn int_to_f64_bits(minus: bool, size: u64) -> u64
    ensures { result ≡ int_bits binary64 (signed_of minus size) }
{
    let bits = u64_to_f64_bits(size);
    if minus {
        if size == 0 {
            return bits;
        }
        return 0x8000_0000_0000_0000 + bits;
    }
    bits
}

// A finite double of the exponent field e and the fraction field t, with the sign clear, as a float's bits.
#[tactic(auto, using(crate::proofs::Narrowing::finite_laws))]
fn finite(e: u64, t: u64) -> u32
    requires { (e < 2047) × (t < 2 ^ 52) }
    ensures { (result ≡ to_bits binary32 (narrow (of_fields binary64 false e t))) × (result ≤ 0x7f80_0000) }
{
    if e <= 872 {
        return 0;
    }
    let m = 0x10_0000_0000_0000 + t;
    if e <= 896 {
        return round_shift(m, (926 - e) as u32) as u32;
    }
    let b = (e - 897) * 0x80_0000 + round_shift(m, 29);
    if b < 0x7f80_0000 {
        return b as u32;
    }
    0x7f80_0000
}

// The bits of a float from the bits of a double.
#[tactic(auto, using(crate::proofs::Narrowing::narrow_laws))]
pub fn f64_bits_to_f32_bits(bits: u64) -> u32
    ensures { result ≡ narrow_bits bits }
{
    let e = bits % 0x8000_0000_0000_0000 / 0x10_0000_0000_0000;
    let t = bits % 0x10_0000_0000_0000;
    if e == 2047 {
        if t == 0 {
            if bits < 0x8000_0000_0000_0000 {
                return 0x7f80_0000;
            }
            return 0xff80_0000;
        }
        return 0x7fc0_0000;
    }
    let m = finite(e, t);
    if bits < 0x8000_0000_0000_0000 {
        return m;
    }
    0x8000_0000 + m
}
