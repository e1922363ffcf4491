// One record, written: its tag, then a number, bytes, or the length of a message.
#![tactic(auto)]

ghost use Rattle.std.specs.Prelude.{◌≡◌, ◌++◌, ◌+◌, ◌^◌, ◌≤◌, ◌<◌, length};
ghost use Rattle.octets.specs.inner.Laid.{Laid};
ghost use Rattle.octets.specs.inner.Moved.{Moved};
ghost use Rattle.records.specs.Records.{record_of, payload, headed, head_of, sized, encode};
ghost use Rattle.records.specs.inner.Emits.{InBody};
ghost use Rattle.records.specs.inner.Enclosed.{shortest, Encloses};

use field::Span;
use reply::Refusal;
use sheet::declaration::Shape;
use types::{I32, I64, LEN, TYPE_SINT32, TYPE_SINT64, wire_of};
use varint::{put_varint, varint_len};

// What a record holds that is no message: the 64 bits of a number, or bytes of the request.
#[derive(Clone, Copy)]
pub enum Body {
    Bits(u64),
    Bytes(Span),
}

// A number's bytes on a type.
#[tactic(auto, using(crate::proofs::RecordLaws::payload_laws), unfolding(crate::specs::Records::payload))]
fn put_payload(out: &mut [u8], at: usize, typ: usize, bits: u64) -> usize
    requires { at < 2 ^ 63 }
    ensures { Laid out.old at (payload typ bits) out.new result }
{
    let wire = wire_of(typ);
    if wire == I32 {
        return wire::fixed::put_fixed32(out, at, wire::numbers::low32(bits) as u32);
    }
    if wire == I64 {
        return wire::fixed::put_fixed64(out, at, bits);
    }
    if typ == TYPE_SINT32 {
        return put_varint(out, at, wire::numbers::zigzag(bits));
    }
    if typ == TYPE_SINT64 {
        return put_varint(out, at, wire::numbers::zigzag(bits));
    }
    put_varint(out, at, bits)
}

// The record of a number.
fn put_number(out: &mut [u8], at: usize, number: u32, typ: usize, bits: u64) -> usize
    requires { at < 2 ^ 62 }
    ensures { Laid out.old at (headed number typ ++ payload typ bits) out.new result }
{
    let p = put_varint(out, at, wire::tag::tag_of(number, wire_of(typ)));
    put_payload(out, p, typ, bits)
}

// The tag and the length of a length-delimited record.
fn put_head(out: &mut [u8], at: usize, number: u32, length: usize) -> usize
    requires { at < 2 ^ 62 }
    ensures { Laid out.old at (head_of number length) out.new result }
{
    let p = put_varint(out, at, wire::tag::tag_of(number, LEN));
    put_varint(out, p, length as u64)
}

// How many bytes the head of a message has at the least: its tag, and a length of one byte.
#[tactic(auto, using(crate::proofs::EnclosedLaws::head_laws))]
pub fn shortest_head(number: u32) -> usize
    ensures is { result ≡ shortest number }
    ensures few { result ≤ 11 }
{
    varint_len(wire::tag::tag_of(number, LEN)) + 1
}

// How many bytes the head of a message has.
#[tactic(auto, using(crate::proofs::EnclosedLaws::head_laws))]
fn head_len(number: u32, size: usize) -> usize
    ensures is { result ≡ length (head_of number size) }
    ensures few { result ≤ 20 }
{
    varint_len(wire::tag::tag_of(number, LEN)) + varint_len(size as u64)
}

// The inside of a message, which stands behind the shortest head at a place, is moved on behind its own.
#[tactic(auto, using(crate::proofs::EnclosedLaws::way_laws))]
fn make_way(out: &mut [u8], at: usize, number: u32, size: usize)
    requires { at + size < 2 ^ 62 }
    ensures { Moved out.old (at + shortest number) (at + length (head_of number size)) size out.new }
{
    let from = at + shortest_head(number);
    let to = at + head_len(number, size);
    octets::move_on(out, from, to, size);
}

// The record of a message whose inside, of this size, stands behind the shortest head at a place.
pub fn enclose(out: &mut [u8], at: usize, number: u32, size: usize) -> usize
    requires { at + size < 2 ^ 62 }
    ensures { Encloses out.old at number size out.new result }
{
    let next = at + head_len(number, size) + size;
    make_way(out, at, number, size);
    put_head(out, at, number, size);
    next
}

// The record of bytes.
fn put_bytes(out: &mut [u8], at: usize, number: u32, bytes: &[u8]) -> usize
    requires { at + length bytes.now < 2 ^ 62 }
    ensures { Laid out.old at (sized number bytes.now) out.new result }
{
    let p = put_head(out, at, number, bytes.len());
    octets::put_all(out, p, bytes)
}

// The record of a body on a field of that shape.
#[tactic(auto, using(crate::proofs::RecordLaws::record_laws), unfolding(crate::specs::Records::encode))]
pub fn put_record(request: &[u8], shape: Shape, body: Body, out: &mut [u8], at: usize) -> usize
    requires in_body { InBody body request.now }
    requires request_bound { at + length request.now < 2 ^ 62 }
    ensures { Laid out.old at (encode (record_of request.now shape body)) out.new result }
{
    match body {
        Body::Bits(bits) => put_number(out, at, shape.number, octets::wide(shape.typ), bits),
        Body::Bytes(place) => {
            let from = place.from;
            let to = place.to;
            put_bytes(out, at, shape.number, &request[from..to])
        }
    }
}
