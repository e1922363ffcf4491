// Signed numbers as 64-bit patterns.
ghost use Rattle.std.specs.Prelude.{◌≡◌, ◌^◌, ◌<◌};
ghost use Rattle.wire.specs.Numbers.{zigzag_of, unzigzag_of, low32_of, widen32_of};

// The zigzag form of the number that the bits of u are.
#[tactic(auto, using(crate::proofs::NumberLaws::number_laws))]
pub fn zigzag(u: u64) -> u64
    ensures { result ≡ zigzag_of u }
{
    if u < 0x8000_0000_0000_0000 {
        2 * u
    } else {
        2 * (0xffff_ffff_ffff_ffff - u) + 1
    }
}

// The bits of the number whose zigzag form is z.
#[tactic(auto, using(crate::proofs::NumberLaws::number_laws))]
pub fn unzigzag(z: u64) -> u64
    ensures { result ≡ unzigzag_of z }
{
    if z % 2 == 0 {
        z / 2
    } else {
        0xffff_ffff_ffff_ffff - z / 2
    }
}

// The low 32 bits.
#[tactic(auto, using(crate::proofs::NumberLaws::number_laws))]
pub fn low32(u: u64) -> u64
    ensures { (result ≡ low32_of u) × (result < 2 ^ 32) }
{
    u % 0x1_0000_0000
}

// 32 bits widened by sign.
#[tactic(auto, using(crate::proofs::NumberLaws::number_laws))]
pub fn widen32(u: u64) -> u64
    requires { u < 2 ^ 32 }
    ensures { result ≡ widen32_of u }
{
    if u < 0x8000_0000 {
        u
    } else {
        u + 0xffff_ffff_0000_0000
    }
}
