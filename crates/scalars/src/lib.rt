// A scalar constant on a field: the bits or the bytes of one record, or why it doesn't fit.
#![tactic(auto)]

ghost use Rattle.std.specs.Prelude.{◌≡◌};
ghost use Rattle.field.specs.Leaf.{Lies};
ghost use Rattle.lookups.specs.Lookups.{walking};
ghost use Rattle.scalars.specs.Scalars.{is_small, is_signed, is_integer, most_of, pattern_of, integer_on, float_on, string_on};
ghost use Rattle.scalars.specs.Scalars.{bool_on, ident_on, scalar_on};
ghost use Rattle.scalars.specs.inner.Inside.{Inside};

use field::Span;
use records::Body;
use reply::Refusal;
use request::constant::Constant;
use sheet::declaration::Shape;
use types::{
    TYPE_BOOL, TYPE_BYTES, TYPE_DOUBLE, TYPE_ENUM, TYPE_FIXED32, TYPE_FIXED64, TYPE_FLOAT,
    TYPE_INT32, TYPE_INT64, TYPE_SFIXED32, TYPE_SFIXED64, TYPE_SINT32, TYPE_SINT64, TYPE_STRING,
    TYPE_UINT32, TYPE_UINT64,
};

// Whether the type is an integer of 32 bits.
#[tactic(auto, unfolding(crate::specs::Scalars::is_small))]
fn is_small(typ: usize) -> bool
    ensures { result ≡ is_small typ }
{
    (typ == TYPE_INT32)
        | (typ == TYPE_SINT32)
        | (typ == TYPE_SFIXED32)
        | (typ == TYPE_UINT32)
        | (typ == TYPE_FIXED32)
}

// Whether the type is an integer that may be negative.
#[tactic(auto, unfolding(crate::specs::Scalars::is_signed))]
fn is_signed(typ: usize) -> bool
    ensures { result ≡ is_signed typ }
{
    (typ == TYPE_INT32)
        | (typ == TYPE_SINT32)
        | (typ == TYPE_SFIXED32)
        | (typ == TYPE_INT64)
        | (typ == TYPE_SINT64)
        | (typ == TYPE_SFIXED64)
}

// Whether the type is an integer.
#[tactic(auto, unfolding(crate::specs::Scalars::is_integer))]
fn is_integer(typ: usize) -> bool
    ensures { result ≡ is_integer typ }
{
    is_small(typ) | is_signed(typ) | (typ == TYPE_UINT64) | (typ == TYPE_FIXED64)
}

// The largest size of an integer on an integer type.
#[tactic(auto, using(crate::proofs::ScalarLaws::most_laws))]
fn most_of(minus: bool, typ: usize) -> u64
    ensures { result ≡ most_of minus typ }
{
    let signed = is_signed(typ);
    let small = is_small(typ);
    if minus {
        if signed {
            if small {
                return 0x8000_0000;
            }
            return 0x8000_0000_0000_0000;
        }
        return 0;
    }
    if signed {
        if small {
            return 0x7fff_ffff;
        }
        return 0x7fff_ffff_ffff_ffff;
    }
    if small {
        return 0xffff_ffff;
    }
    0xffff_ffff_ffff_ffff
}

// The 64 bits of an integer.
#[tactic(auto, using(crate::proofs::ScalarLaws::pattern_laws), unfolding(crate::specs::Scalars::pattern_of))]
fn pattern_of(minus: bool, size: u64) -> u64
    ensures { result ≡ pattern_of minus size }
{
    if minus {
        if size == 0 {
            return 0;
        }
        return 0xffff_ffff_ffff_ffff - size + 1;
    }
    size
}

// An integer: on an integer type that holds it, or rounded.
#[tactic(auto, using(crate::proofs::ScalarLaws::integer_laws))]
fn integer_on(typ: usize, minus: bool, size: u64) -> Result<Body, Refusal>
    ensures { result ≡ integer_on typ minus size }
{
    if is_integer(typ) {
        if size <= most_of(minus, typ) {
            return Ok(Body::Bits(pattern_of(minus, size)));
        }
        return Err(Refusal::ValueRange);
    }
    if typ == TYPE_FLOAT {
        return Ok(Body::Bits(round::int_to_f32_bits(minus, size) as u64));
    }
    if typ == TYPE_DOUBLE {
        return Ok(Body::Bits(round::int_to_f64_bits(minus, size)));
    }
    Err(Refusal::UnsupportedExtensionType)
}

// A float constant, by its bits.
#[tactic(auto, using(crate::proofs::ScalarLaws::float_laws))]
fn float_on(typ: usize, bits: u64) -> Result<Body, Refusal>
    ensures { result ≡ float_on typ bits }
{
    if typ == TYPE_DOUBLE {
        return Ok(Body::Bits(bits));
    }
    if typ == TYPE_FLOAT {
        return Ok(Body::Bits(round::f64_bits_to_f32_bits(bits) as u64));
    }
    Err(Refusal::UnsupportedExtensionType)
}

// A string of the request.
#[tactic(auto, using(crate::proofs::ScalarLaws::string_laws))]
fn string_on(request: &[u8], typ: usize, place: Span) -> Result<Body, Refusal>
    requires { Lies place request.now }
    ensures { result ≡ string_on request.now typ place }
{
    if typ == TYPE_STRING {
        let from = place.from;
        let to = place.to;
        if utf8::is_utf8(&request[from..to]) {
            return Ok(Body::Bytes(place));
        }
        return Err(Refusal::StrLitDecodeError);
    }
    if typ == TYPE_BYTES {
        return Ok(Body::Bytes(place));
    }
    Err(Refusal::UnsupportedExtensionType)
}

// A bool.
#[tactic(auto, using(crate::proofs::ScalarLaws::bool_laws))]
fn bool_on(typ: usize, b: bool) -> Result<Body, Refusal>
    ensures { result ≡ bool_on typ b }
{
    if typ == TYPE_BOOL {
        if b {
            return Ok(Body::Bits(1));
        }
        return Ok(Body::Bits(0));
    }
    Err(Refusal::UnsupportedExtensionType)
}

// An identifier of the request: on an enum, the number of that value.
#[tactic(auto, using(crate::proofs::ConstantLaws::ident_laws))]
fn ident_on(
    sheet: &[u8],
    request: &[u8],
    unlisted: Refusal,
    shape: Shape,
    place: Span,
) -> Result<Body, Refusal>
    requires lies { Lies place request.now }
    requires lies_2 { Lies shape.path sheet.now }
    ensures { result ≡ ident_on (walking sheet.now) sheet.now request.now unlisted shape place }
{
    if octets::wide(shape.typ) != TYPE_ENUM {
        return Err(Refusal::UnsupportedExtensionType);
    }
    let from = place.from;
    let to = place.to;
    let values = lookups::enum_at(sheet, shape.path)?;
    let Some(v) = lookups::value_named(sheet, values, &request[from..to]) else {
        return Err(unlisted);
    };
    Ok(Body::Bits(wire::numbers::widen32(v.number as u64)))
}

// A scalar constant on a field of that shape.
#[tactic(auto, using(crate::proofs::ConstantLaws::scalar_laws))]
pub fn scalar_on(
    sheet: &[u8],
    request: &[u8],
    unlisted: Refusal,
    shape: Shape,
    constant: Constant,
) -> Result<Body, Refusal>
    requires inside { Inside constant request.now }
    requires lies { Lies shape.path sheet.now }
    ensures { result ≡ scalar_on (walking sheet.now) sheet.now request.now unlisted shape constant }
{
    let typ = octets::wide(shape.typ);
    match constant {
        Constant::Bool(b) => bool_on(typ, b),
        Constant::Integer { minus, size } => integer_on(typ, minus, size),
        Constant::Float(x) => float_on(typ, f64::to_bits(x)),
        Constant::NotANumber(bits) => float_on(typ, bits),
        Constant::Text(place) => string_on(request, typ, place),
        Constant::Ident(place) => ident_on(sheet, request, unlisted, shape, place),
        Constant::Message(_) => Err(Refusal::UnsupportedExtensionType),
        Constant::List(_) => Err(Refusal::UnsupportedExtensionType),
    }
}
