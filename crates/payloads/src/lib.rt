// The payload of a record: its bytes, the number that they say, and the value of that on a type.
#![tactic(auto)]

ghost use Rattle.std.specs.Prelude.{◌≡◌, true, ◌≤◌, length};
ghost use Rattle.basis.specs.First.{only_if};
ghost use Rattle.types.specs.Types.{VARINT as varint_type, I64 as i64_type, I32 as i32_type, LEN as len_type};
ghost use Rattle.wire.specs.Tag.{wire_read};
ghost use Rattle.payloads.specs.Value.{value_of};
ghost use Rattle.payloads.specs.inner.Placed.{payload_in};

use types::{
    I32, I64, TYPE_BOOL, TYPE_ENUM, TYPE_FIXED32, TYPE_FLOAT, TYPE_INT32, TYPE_SFIXED32,
    TYPE_SINT32, TYPE_SINT64, TYPE_UINT32, VARINT,
};
use varint::{Read, varint_at};
use wire::fixed::{fixed32_at, fixed64_at};
use wire::numbers::{low32, unzigzag, widen32};

// A payload: its place, its size and the number that its bytes say, 0 of a length-delimited one.
#[derive(Clone, Copy)]
pub struct Payload {
    pub at: usize,
    pub size: usize,
    pub number: u64,
}

// A varint that says its own number, or else a length and as many bytes.
#[tactic(auto, using(crate::proofs::PayloadLaws::payload_laws))]
fn varint_in(s: &[u8], own: bool, at: usize, end: usize) -> Option<Payload>
    requires { (at ≤ end) × (end ≤ length s.now) }
    ensures { result ≡ payload_in (only_if own varint_type len_type) s.now at end }
{
    let read = varint_at(s, at, end)?;
    if own {
        return Some(Payload {
            at: at,
            size: read.next - at,
            number: read.value,
        });
    }
    if read.value <= (end - read.next) as u64 {
        return Some(Payload {
            at: read.next,
            size: read.value as usize,
            number: 0,
        });
    }
    None
}

// Four bytes.
#[tactic(auto, using(crate::proofs::PayloadLaws::payload_laws))]
fn four_in(s: &[u8], at: usize, end: usize) -> Option<Payload>
    requires { (at ≤ end) × (end ≤ length s.now) }
    ensures { result ≡ payload_in i32_type s.now at end }
{
    if end - at < 4 {
        return None;
    }
    Some(Payload {
        at: at,
        size: 4,
        number: fixed32_at(s, at) as u64,
    })
}

// Eight bytes.
#[tactic(auto, using(crate::proofs::PayloadLaws::payload_laws))]
fn eight_in(s: &[u8], at: usize, end: usize) -> Option<Payload>
    requires { (at ≤ end) × (end ≤ length s.now) }
    ensures { result ≡ payload_in i64_type s.now at end }
{
    if end - at < 8 {
        return None;
    }
    Some(Payload {
        at: at,
        size: 8,
        number: fixed64_at(s, at),
    })
}

// The payload of a wire type that is read, between two places.
#[tactic(auto, using(crate::proofs::PayloadLaws::payload_laws))]
pub fn payload_at(s: &[u8], wire: u8, at: usize, end: usize) -> Option<Payload>
    requires at_le_end { (at ≤ end) × (end ≤ length s.now) }
    requires wire_value { wire_read wire ≡ true }
    ensures { result ≡ payload_in wire s.now at end }
{
    if wire == I64 {
        return eight_in(s, at, end);
    }
    if wire == I32 {
        return four_in(s, at, end);
    }
    varint_in(s, wire == VARINT, at, end)
}

// The value of a record of that type whose payload says this number.
#[tactic(auto, using(crate::proofs::ValueLaws::value_laws))]
pub fn value_of(typ: usize, said: u64) -> u64
    ensures { result ≡ value_of typ said }
{
    if typ == TYPE_BOOL {
        if said == 0 {
            return 0;
        }
        return 1;
    }
    if (typ == TYPE_UINT32) | (typ == TYPE_FIXED32) | (typ == TYPE_FLOAT) {
        return low32(said);
    }
    if (typ == TYPE_INT32) | (typ == TYPE_ENUM) | (typ == TYPE_SFIXED32) {
        return widen32(low32(said));
    }
    if typ == TYPE_SINT32 {
        return unzigzag(low32(said));
    }
    if typ == TYPE_SINT64 {
        return unzigzag(said);
    }
    said
}
