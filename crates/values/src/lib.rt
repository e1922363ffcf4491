// Constants on fields, written: value, list and message writers call each other, the bytes of constant left falling at each call.
#![tactic(auto)]

ghost use Rattle.std.specs.Prelude.{◌≡◌, ◌+◌, ◌-◌, ◌^◌, ◌≤◌, ◌<◌, length};
ghost use Rattle.field.specs.Leaf.{Lies};
ghost use Rattle.scope.specs.inner.Answers.{InSheet};
ghost use Rattle.records.specs.Made.{holding};
ghost use Rattle.records.specs.inner.Emits.{bytes_most, wrote_of, Emits, Roomy};
ghost use Rattle.lookups.specs.Lookups.{walking};
ghost use Rattle.scalars.specs.inner.Inside.{Inside};
ghost use Rattle.values.specs.Values.{scalar_made};
ghost use Rattle.values.specs.inner.Writers.{most_scalar, kind_of, held_at, target_of, value_made, list_made, pairs_made, pair_made};
ghost use Rattle.values.specs.inner.Writers.{message_made};

use field::fields::Fields;
use pair::{Pair, pair_at};
use records::{enclose, put_record, shortest_head};
use reply::Refusal;
use request::constant::Constant;
use request::table;
use scalars::scalar_on;
use scope::lookup::LookupScope;
use sheet::declaration::Shape;
use types::TYPE_MESSAGE;

// What a constant is.
#[derive(Clone, Copy)]
pub enum Kind {
    Scalar,
    List,
    Message,
}

fn kind_of(c: Constant) -> Kind
    ensures { result ≡ kind_of c }
{
    match c {
        Constant::Bool(_) => Kind::Scalar,
        Constant::Integer { minus: _, size: _ } => Kind::Scalar,
        Constant::Float(_) => Kind::Scalar,
        Constant::NotANumber(_) => Kind::Scalar,
        Constant::Text(_) => Kind::Scalar,
        Constant::Ident(_) => Kind::Scalar,
        Constant::Message(_) => Kind::Message,
        Constant::List(_) => Kind::List,
    }
}

// The constant of a field, where a level is left for it.
#[tactic(auto, using(crate::proofs::ValueLaws::held_laws))]
fn held_at(request: &[u8], left: usize, tag: u8, from: usize, to: usize) -> Option<Constant>
    requires { (from ≤ to) × (to ≤ length request.now) }
    ensures { result ≡ held_at left request.now tag from to }
{
    if left == 0 {
        return None;
    }
    request::constant::constant_of(request, tag, from, to)
}

// The record of a scalar constant on a field of that shape.
#[tactic(auto, using(crate::proofs::ScalarLaws::put_scalar_laws))]
fn put_scalar(
    sheet: &[u8],
    request: &[u8],
    shape: Shape,
    constant: Constant,
    out: &mut [u8],
    at: usize,
) -> Result<usize, Refusal>
    requires inside { Inside constant request.now }
    requires lies { Lies shape.path sheet.now }
    requires request_bound { at + length request.now < 2 ^ 62 }
    ensures { Emits wrote_of (scalar_made (walking sheet.now) sheet.now request.now constant shape)
        (most_scalar constant) out.old at out.new result }
{
    let body = scalar_on(sheet, request, Refusal::UnknownEnumValue, shape, constant)?;
    Ok(put_record(request, shape, body, out, at))
}

// A message constant on a field of that shape.
#[cycle(put_inside_put_list_put_message_put_pair_put_pairs_put_value)]
fn put_message(
    sheet: &[u8],
    request: &[u8],
    shape: Shape,
    from: usize,
    to: usize,
    left: usize,
    out: &mut [u8],
    at: usize,
) -> Result<usize, Refusal>
    requires from_le_to { (from ≤ to) × (to ≤ length request.now) }
    requires lies { Lies shape.path sheet.now }
    requires roomy { Roomy at (3 + (to - from)) request.now }
    ensures { Emits wrote_of
        (message_made (walking sheet.now) sheet.now request.now shape left from to)
        (bytes_most (3 + (to - from))) out.old at out.new result }
{
    if octets::wide(shape.typ) != TYPE_MESSAGE {
        return Err(Refusal::MessageFieldRequiresMessageConstant);
    }
    let scope = lookups::message_at(sheet, shape.path)?;
    put_inside(sheet, request, shape.number, scope, from, to, left, out, at)
}

// The record of a message: its pairs are written behind the shortest head, and then enclosed.
#[cycle(put_inside_put_list_put_message_put_pair_put_pairs_put_value)]
fn put_inside(
    sheet: &[u8],
    request: &[u8],
    number: u32,
    scope: LookupScope,
    from: usize,
    to: usize,
    left: usize,
    out: &mut [u8],
    at: usize,
) -> Result<usize, Refusal>
    requires from_le_to { (from ≤ to) × (to ≤ length request.now) }
    requires in_sheet { InSheet sheet.now scope }
    requires roomy { Roomy at (3 + (to - from)) request.now }
    ensures { Emits wrote_of
        (holding number (pairs_made (walking sheet.now) sheet.now request.now scope left from to))
        (bytes_most (3 + (to - from))) out.old at out.new result }
{
    let start = at + shortest_head(number);
    let end = put_pairs(sheet, request, scope, from, to, left, out, start)?;
    Ok(enclose(out, at, number, end - start))
}

// The pairs of a message.
#[cycle(put_inside_put_list_put_message_put_pair_put_pairs_put_value)]
fn put_pairs(
    sheet: &[u8],
    request: &[u8],
    scope: LookupScope,
    from: usize,
    to: usize,
    left: usize,
    out: &mut [u8],
    at: usize,
) -> Result<usize, Refusal>
    requires from_le_to { (from ≤ to) × (to ≤ length request.now) }
    requires in_sheet { InSheet sheet.now scope }
    requires roomy { Roomy at (to - from) request.now }
    ensures { Emits wrote_of (pairs_made (walking sheet.now) sheet.now request.now scope left from to)
        (bytes_most (to - from)) out.old at out.new result }
{
    let mut p = at;
    let mut i = from;
    while i < to {
        let Some(pair) = pair_at(request, i, to) else {
            return Ok(p);
        };
        p = put_pair(sheet, request, scope, pair, left, out, p)?;
        i = pair.constant.to;
    }
    Ok(p)
}

// The shape of the field that a pair names; none where its name is of another kind, or it has no constant.
#[tactic(auto, using(crate::proofs::PairLaws::target_laws))]
fn target_of(
    sheet: &[u8],
    request: &[u8],
    scope: LookupScope,
    pair: Pair,
    left: usize,
) -> Result<Option<Shape>, Refusal>
    requires lies { Lies pair.name request.now }
    requires lies_2 { Lies pair.constant request.now }
    requires in_sheet { InSheet sheet.now scope }
    ensures { result ≡ target_of sheet.now request.now scope left pair }
{
    let constant = held_at(
        request,
        left,
        pair.tag,
        pair.constant.from,
        pair.constant.to,
    );
    if constant.is_none() {
        return Ok(None);
    }
    if pair.by != table::PAIR_FIELD {
        return Ok(None);
    }
    let a = pair.name.from;
    let e = pair.name.to;
    let field = lookups::field_named(sheet, scope, &request[a..e]).ok_or(
        Refusal::UnknownFieldName,
    )?;
    Ok(Some(field.shape))
}

// One pair: a field by its name; a name of another kind writes nothing.
#[cycle(put_inside_put_list_put_message_put_pair_put_pairs_put_value)]
fn put_pair(
    sheet: &[u8],
    request: &[u8],
    scope: LookupScope,
    pair: Pair,
    left: usize,
    out: &mut [u8],
    at: usize,
) -> Result<usize, Refusal>
    requires lies { Lies pair.name request.now }
    requires lies_2 { Lies pair.constant request.now }
    requires in_sheet { InSheet sheet.now scope }
    requires roomy { Roomy at (3 + (pair.constant.to - pair.constant.from)) request.now }
    ensures { Emits wrote_of (pair_made (walking sheet.now) sheet.now request.now scope left pair)
        (bytes_most (3 + (pair.constant.to - pair.constant.from))) out.old at out.new result }
{
    let Some(shape) = target_of(sheet, request, scope, pair, left)? else {
        return Ok(at);
    };
    put_value(
        sheet,
        request,
        shape,
        pair.tag,
        pair.constant.from,
        pair.constant.to,
        left,
        out,
        at,
    )
}

// The constant of this tag whose payload is from..to, on a field of that shape.
#[cycle(put_inside_put_list_put_message_put_pair_put_pairs_put_value)]
pub fn put_value(
    sheet: &[u8],
    request: &[u8],
    shape: Shape,
    tag: u8,
    from: usize,
    to: usize,
    left: usize,
    out: &mut [u8],
    at: usize,
) -> Result<usize, Refusal>
    requires from_le_to { (from ≤ to) × (to ≤ length request.now) }
    requires lies { Lies shape.path sheet.now }
    requires roomy { Roomy at (3 + (to - from)) request.now }
    ensures { Emits wrote_of
        (value_made (walking sheet.now) sheet.now request.now shape left tag from to)
        (bytes_most (3 + (to - from))) out.old at out.new result }
{
    let Some(c) = held_at(request, left, tag, from, to) else {
        return Ok(at);
    };
    match kind_of(c) {
        Kind::Scalar => put_scalar(sheet, request, shape, c, out, at),
        Kind::List => put_list(sheet, request, shape, from, to, left - 1, out, at),
        Kind::Message => put_message(sheet, request, shape, from, to, left - 1, out, at),
    }
}

// The elements of a list, each on that field.
#[cycle(put_inside_put_list_put_message_put_pair_put_pairs_put_value)]
fn put_list(
    sheet: &[u8],
    request: &[u8],
    shape: Shape,
    from: usize,
    to: usize,
    left: usize,
    out: &mut [u8],
    at: usize,
) -> Result<usize, Refusal>
    requires from_le_to { (from ≤ to) × (to ≤ length request.now) }
    requires lies { Lies shape.path sheet.now }
    requires roomy { Roomy at (to - from) request.now }
    ensures { Emits wrote_of (list_made (walking sheet.now) sheet.now request.now shape left from to)
        (bytes_most (to - from)) out.old at out.new result }
{
    let mut p = at;
    for field in Fields::between(request, from, to) {
        let Some(field) = field else {
            return Ok(p);
        };
        p = put_value(
            sheet, request, shape, field.tag, field.from, field.to, left, out, p,
        )?;
    }
    Ok(p)
}
