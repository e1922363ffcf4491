// Builtins: a single direct part, on a field of the options message.
#![tactic(auto)]

ghost use Rattle.std.specs.Prelude.{◌≡◌, [], ◌∷◌, ◌+◌, ◌^◌, ◌≤◌, ◌<◌, length, Some};
ghost use Rattle.octets.specs.inner.Laid.{Laid};
ghost use Rattle.limits.specs.Figures.{most_constants};
ghost use Rattle.types.specs.Types.{is_any, TYPE_BOOL, TYPE_STRING, TYPE_ENUM};
ghost use Rattle.field.specs.Leaf.{text, Lies};
ghost use Rattle.scope.specs.inner.Answers.{InSheet};
ghost use Rattle.request.specs.Tree.{unnamed, none as no_constant, constant_in};
ghost use Rattle.records.specs.Records.{encode};
ghost use Rattle.lookups.specs.Lookups.{walking};
ghost use Rattle.builtins.specs.Builtins.{is_skipped, builtin_on, builtin_field, builtin_of, built_recs};
ghost use Rattle.builtins.specs.inner.Inside.{InBuilt};

use field::Span;
use octets::same;
use records::{Body, put_record};
use reply::Refusal;
use request::constant::constant_of;
use scalars::scalar_on;
use scope::lookup::LookupScope;
use sheet::declaration::{Declaration, Shape};
use types::{TYPE_BOOL, TYPE_ENUM, TYPE_STRING};

// A builtin that sets its field: the field's shape, and what its constant comes to.
#[derive(Clone, Copy)]
pub struct Built {
    pub shape: Shape,
    pub body: Body,
}

// descriptor.proto's label LABEL_REPEATED.
const REPEATED: u8 = 3;

// Whether the name is skipped on that options type.
#[tactic(auto, unfolding(crate::specs::Builtins::is_skipped))]
fn is_skipped(message: &[u8], name: &[u8]) -> bool
    ensures { result ≡ is_skipped message.now name.now }
{
    same(message, b"google.protobuf.FieldOptions")
        & (same(name, b"default") | same(name, b"json_name"))
}

// Whether a builtin may be of the type.
#[tactic(auto, using(crate::proofs::BuiltinLaws::plain_is))]
fn is_plain(typ: usize) -> bool
    ensures { result ≡ is_any typ (TYPE_BOOL ∷ TYPE_ENUM ∷ TYPE_STRING ∷ []) }
{
    (typ == TYPE_BOOL) | (typ == TYPE_ENUM) | (typ == TYPE_STRING)
}

// The constant of this tag whose payload is from..to, on a builtin of that shape.
#[tactic(auto, using(crate::proofs::BuiltinLaws::on_laws))]
fn builtin_on(
    sheet: &[u8],
    request: &[u8],
    shape: Shape,
    tag: u8,
    from: usize,
    to: usize,
) -> Result<Body, Refusal>
    requires lies { Lies shape.path sheet.now }
    requires from_le_to { (from ≤ to) × (to ≤ length request.now) }
    ensures { result ≡ builtin_on (walking sheet.now) sheet.now request.now shape
        (constant_in most_constants request.now unnamed tag from to no_constant) }
{
    let constant = constant_of(request, tag, from, to).ok_or(Refusal::UnsupportedExtensionType)?;
    if is_plain(octets::wide(shape.typ)) {
        return scalar_on(
            sheet,
            request,
            Refusal::UnsupportedExtensionType,
            shape,
            constant,
        );
    }
    Err(Refusal::UnsupportedExtensionType)
}

// The same on the field that was found.
#[tactic(auto, using(crate::proofs::BuiltinLaws::field_laws))]
fn builtin_field(
    sheet: &[u8],
    request: &[u8],
    found: Declaration,
    tag: u8,
    from: usize,
    to: usize,
) -> Result<Option<Built>, Refusal>
    requires lies { Lies found.shape.path sheet.now }
    requires from_le_to { (from ≤ to) × (to ≤ length request.now) }
    ensures { result ≡ builtin_field (walking sheet.now) sheet.now request.now
        (constant_in most_constants request.now unnamed tag from to no_constant) (Some found) }
{
    let shape = found.shape;
    if shape.label == REPEATED {
        return Err(Refusal::BuiltinOptionPointsToNonSingularField);
    }
    let body = builtin_on(sheet, request, shape, tag, from, to)?;
    Ok(Some(Built { shape, body }))
}

// What the constant comes to on the builtin of that name, none where the name is skipped: the message is the options type, and stands at the place.
#[tactic(auto, using(crate::proofs::BuiltinLaws::of_laws))]
pub fn builtin_of(
    sheet: &[u8],
    request: &[u8],
    message: &[u8],
    place: LookupScope,
    name: Span,
    tag: u8,
    from: usize,
    to: usize,
) -> Result<Option<Built>, Refusal>
    requires in_sheet { InSheet sheet.now place }
    requires lies { Lies name request.now }
    requires from_le_to { (from ≤ to) × (to ≤ length request.now) }
    ensures { result ≡ builtin_of (walking sheet.now) sheet.now request.now
        (record { name = message.now; place = place }) (text request.now name)
        (constant_in most_constants request.now unnamed tag from to no_constant) }
{
    let a = name.from;
    let e = name.to;
    if is_skipped(message, &request[a..e]) {
        return Ok(None);
    }
    let found = lookups::field_named(sheet, place, &request[a..e]).ok_or(
        Refusal::BuiltinOptionNotFound,
    )?;
    builtin_field(sheet, request, found, tag, from, to)
}

// The record of a builtin that is set.
#[tactic(auto, using(crate::proofs::BuiltLaws::put_laws), unfolding(records::specs::Records::encode))]
pub fn put_builtin(
    request: &[u8],
    built: Result<Option<Built>, Refusal>,
    out: &mut [u8],
    at: usize,
) -> usize
    requires in_built { InBuilt built request.now }
    requires request_bound { at + length request.now < 2 ^ 62 }
    ensures { Laid out.old at (encode (built_recs request.now built)) out.new result }
{
    match built {
        Ok(None) => at,
        Ok(Some(built)) => put_record(request, built.shape, built.body, out, at),
        Err(_) => at,
    }
}
