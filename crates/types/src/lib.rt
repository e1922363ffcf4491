// The types of descriptor.proto and their wire types.
#![tactic(auto)]

ghost use Rattle.std.specs.Prelude.{◌≡◌};
ghost use Rattle.types.specs.Types.{wire_of};

use limits::MOST_TYPE;

// The types, by descriptor.proto's numbers; specs/Types.antt names the same ones for the definitions.
// Numbers and no enum: a sheet's type is any byte, and the readers take every byte string (`shape_at` of `sheet`).
pub const TYPE_DOUBLE: usize = 1;

pub const TYPE_FLOAT: usize = 2;

pub const TYPE_INT64: usize = 3;

pub const TYPE_UINT64: usize = 4;

pub const TYPE_INT32: usize = 5;

pub const TYPE_FIXED64: usize = 6;

pub const TYPE_FIXED32: usize = 7;

pub const TYPE_BOOL: usize = 8;

pub const TYPE_STRING: usize = 9;

pub const TYPE_GROUP: usize = 10;

pub const TYPE_MESSAGE: usize = 11;

pub const TYPE_BYTES: usize = 12;

pub const TYPE_UINT32: usize = 13;

pub const TYPE_ENUM: usize = 14;

pub const TYPE_SFIXED32: usize = 15;

pub const TYPE_SFIXED64: usize = 16;

pub const TYPE_SINT32: usize = 17;

pub const TYPE_SINT64: usize = 18;

// The wire types. Numbers and no enum: a tag may name any of eight (`wire_type_of` of `wire`).
pub const VARINT: u8 = 0;

pub const I64: u8 = 1;

pub const LEN: u8 = 2;

pub const SGROUP: u8 = 3;

pub const I32: u8 = 5;

// The wire type of each type, by its number, 1 to 18. 0 is no type.
const WIRE: [u8; 19] = [0, 1, 5, 0, 0, 0, 1, 5, 0, 2, 3, 2, 2, 0, 0, 5, 1, 0, 0];

// Above the last type it is a varint's, as the definition leaves what it does not list.
#[tactic(auto, using(crate::proofs::TypeLaws::wire_laws), unfolding(crate::specs::Types::wire_of))]
pub fn wire_of(kind: usize) -> u8
    ensures { result ≡ wire_of kind }
{
    if kind <= MOST_TYPE {
        return WIRE[kind];
    }
    VARINT
}
