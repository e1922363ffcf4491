// Tags: a field number and a wire type.
ghost use Rattle.std.specs.Prelude.{◌≡◌, ◌<◌};
ghost use Rattle.wire.specs.Tag.{tag_of, number_of, wire_type_of, tag_good as tag_good_of};

use limits::MOST_NUMBER;
use types::{I32, I64, LEN, VARINT};

// The tag of a field number and a wire type.
pub fn tag_of(number: u32, wire: u8) -> u64
    ensures { result ≡ tag_of number wire }
{
    (number as u64) * 8 + (wire as u64)
}

// The field number of a tag.
pub fn number_of(tag: u64) -> u64
    ensures { result ≡ number_of tag }
{
    tag / 8
}

// The wire type of a tag.
pub fn wire_type_of(tag: u64) -> u8
    ensures { (result ≡ wire_type_of tag) × (result < 8) }
{
    (tag % 8) as u8
}

// Whether a tag has a field number in 01's range and a wire type that is read.
#[tactic(auto, using(crate::proofs::TagLaws::tag_good_is))]
pub fn tag_good(tag: u64) -> bool
    ensures { result ≡ tag_good_of tag }
{
    let number = number_of(tag);
    let wire = wire_type_of(tag);
    ((1 <= number) & (number <= MOST_NUMBER))
        & ((wire == VARINT) | (wire == I64) | (wire == LEN) | (wire == I32))
}
