// The strict test for UTF-8.
#![tactic(auto)]

ghost use Rattle.std.specs.Prelude.{◌≡◌, ◌≤◌, ◌<◌, length, get_or, drop};
ghost use Rattle.utf8.specs.Utf8.{is_utf8, lead_of};

// How many bytes the scalar value at the front takes, 0 where none stands there, for a first byte of 80 to DF.
// A byte goes on with a value where its two high bits are 10, so where a 64th of it is 2; C0 and C1 lead overlong forms alone.
#[tactic(auto, using(crate::proofs::Lead::two_laws))]
fn two(bs: &[u8]) -> usize
    requires { (0x80 ≤ get_or bs.now 0 0) × (get_or bs.now 0 0 < 0xE0) }
    ensures { result ≡ lead_of bs.now }
{
    if bs.len() < 2 {
        return 0;
    }
    let a = octets::byte_at(bs, 0);
    let b = octets::byte_at(bs, 1);
    if a < 0xc2 {
        return 0;
    }
    if b / 64 != 2 {
        return 0;
    }
    2
}

// The same for a first byte of E0 to EF. Overlong forms are below U+0800; surrogates are the values whose 0x800th is 0x1B.
#[tactic(auto, using(crate::proofs::Lead::three_laws))]
fn three(bs: &[u8]) -> usize
    requires { (0xE0 ≤ get_or bs.now 0 0) × (get_or bs.now 0 0 < 0xF0) }
    ensures { result ≡ lead_of bs.now }
{
    if bs.len() < 3 {
        return 0;
    }
    let b = octets::byte_at(bs, 1);
    let c = octets::byte_at(bs, 2);
    if b / 64 != 2 {
        return 0;
    }
    if c / 64 != 2 {
        return 0;
    }
    let point = (octets::byte_at(bs, 0) - 0xe0) * 4096 + (b - 0x80) * 64 + (c - 0x80);
    if point < 0x800 {
        return 0;
    }
    if point / 0x800 == 0x1b {
        return 0;
    }
    3
}

// The same for a first byte of F0 to FF.
#[tactic(auto, using(crate::proofs::Lead::four_laws))]
fn four(bs: &[u8]) -> usize
    requires { 0xF0 ≤ get_or bs.now 0 0 }
    ensures { result ≡ lead_of bs.now }
{
    if bs.len() < 4 {
        return 0;
    }
    let b = octets::byte_at(bs, 1);
    let c = octets::byte_at(bs, 2);
    let d = octets::byte_at(bs, 3);
    if b / 64 != 2 {
        return 0;
    }
    if c / 64 != 2 {
        return 0;
    }
    if d / 64 != 2 {
        return 0;
    }
    let point = (octets::byte_at(bs, 0) - 0xf0) * 262144
        + (b - 0x80) * 4096
        + (c - 0x80) * 64
        + (d - 0x80);
    if point < 0x10000 {
        return 0;
    }
    if 0x10ffff < point {
        return 0;
    }
    4
}

// How many bytes the scalar value at a place takes, 0 where none stands there.
#[tactic(auto, using(crate::proofs::Lead::lead_laws))]
fn lead_at(s: &[u8], at: usize) -> usize
    requires { at < length s.now }
    ensures { result ≡ lead_of (drop at s.now) }
{
    let bs = &s[at..];
    let a = octets::byte_at(bs, 0);
    if a < 0x80 {
        return 1;
    }
    if a < 0xe0 {
        return two(bs);
    }
    if a < 0xf0 {
        return three(bs);
    }
    four(bs)
}

// Whether the bytes are UTF-8: whole scalar values, one after the other.
#[tactic(auto, using(crate::proofs::Scan::scan_laws))]
pub fn is_utf8(s: &[u8]) -> bool
    ensures { result ≡ is_utf8 s.now }
{
    let mut i = 0;
    while i < s.len() {
        let n = lead_at(s, i);
        if n == 0 {
            return false;
        }
        i += n;
    }
    true
}
