// What a part of an option's name comes to in the message reached, and what it leads to: the constant behind it, or more parts inside a
// message. Innermost path first, found first and tested second; nobody above makes a refusal of a "none".
#![tactic(auto)]

ghost use Rattle.std.specs.Prelude.{◌≡◌, true, ◌≤◌, length};
ghost use Rattle.path.specs.Path.{is_rel_or_empty};
ghost use Rattle.field.specs.Leaf.{text, Lies};
ghost use Rattle.scope.specs.inner.Answers.{InSheet};
ghost use Rattle.constantform.specs.Leaves.{good_part};
ghost use Rattle.optionform.specs.inner.Parts.{OptionParts};
ghost use Rattle.lookups.specs.Lookups.{walking};
ghost use Rattle.steps.specs.Steps.{why_of, step_extension, step_of};
ghost use Rattle.steps.specs.inner.Reached.{message as message_of, left_on, behind as behind_of, stepped, StepLies, Led, reach_of};

use reply::Refusal;
use request::name::{Part, part_at};
use scope::lookup::LookupScope;
use search::extension::{Candidate, Compared};
use sheet::declaration::{Declaration, Shape};
use types::{TYPE_GROUP, TYPE_MESSAGE};

// Why a name part comes to nothing, with the fact behind it: no field of that name in the message reached; the search's own refusal; the
// candidate that answers, whose extension extends another message.
#[derive(Clone, Copy)]
pub enum Lack {
    NoField,
    NoExtension(Refusal),
    OtherMessage(Candidate),
}

// What a part leads to: the constant behind it, on a field of that shape; more parts, inside the message of that path and place, in a record
// of that number; nothing, where there is no part, or parts are left on a group. `from` is where the part ends.
#[derive(Clone, Copy)]
pub enum Reach {
    Constant {
        shape: Shape,
        from: usize,
    },
    Inside {
        shape: Shape,
        place: LookupScope,
        from: usize,
    },
    Nothing,
}

// What an extension part comes to, by what its search comes to.
#[tactic(auto, using(crate::proofs::StepLaws::searched_laws))]
fn step_extension(searched: Result<Compared, Refusal>) -> Result<Declaration, Lack>
    ensures { result ≡ step_extension searched }
{
    match searched {
        Err(why) => Err(Lack::NoExtension(why)),
        Ok(Compared::ExtendsOther(first)) => Err(Lack::OtherMessage(first)),
        Ok(Compared::Extends(first)) => Ok(first.found.declaration),
    }
}

// What a part comes to in a message: a direct part as a field, an extension part by search from the request's scope.
#[tactic(auto, using(crate::proofs::StepLaws::step_laws))]
pub fn step_of(
    sheet: &[u8],
    request: &[u8],
    scope: &[u8],
    message: &[u8],
    place: LookupScope,
    part: Part,
) -> Result<Declaration, Lack>
    requires scope_value { is_rel_or_empty scope.now ≡ true }
    requires in_sheet { InSheet sheet.now place }
    requires lies_2 { Lies part.name request.now }
    requires name_value { good_part part.extension (text request.now part.name) ≡ true }
    ensures is { result ≡ step_of (walking sheet.now) sheet.now request.now scope.now
        (message_of message.now place) part }
    ensures lies { StepLies sheet.now result }
{
    let from = part.name.from;
    let to = part.name.to;
    if part.extension {
        return step_extension(lookups::extension(sheet, scope, message, &request[from..to]));
    }
    lookups::field_named(sheet, place, &request[from..to]).ok_or(Lack::NoField)
}

// What parts left on a field of that shape lead to.
#[tactic(auto, using(crate::proofs::ReachLaws::left_laws))]
fn left_on(sheet: &[u8], shape: Shape, from: usize) -> Result<Reach, Refusal>
    requires { Lies shape.path sheet.now }
    ensures { result ≡ left_on (walking sheet.now) sheet.now shape from }
{
    let typ = octets::wide(shape.typ);
    if typ == TYPE_MESSAGE {
        let place = lookups::message_at(sheet, shape.path)?;
        return Ok(Reach::Inside { shape, place, from });
    }
    if typ == TYPE_GROUP {
        return Ok(Reach::Nothing);
    }
    Err(Refusal::ExtensionIsNotMessage)
}

// What a declaration of that shape leads to, whose part ends at `from`: to more parts or to the constant.
#[tactic(auto, using(crate::proofs::ReachLaws::behind_laws))]
pub fn behind(
    sheet: &[u8],
    request: &[u8],
    shape: Shape,
    from: usize,
    to: usize,
) -> Result<Reach, Refusal>
    requires from_le_to { (from ≤ to) × (to ≤ length request.now) }
    requires lies { Lies shape.path sheet.now }
    ensures { result ≡ behind_of (walking sheet.now) sheet.now request.now shape from to }
{
    if part_at(request, from, to).is_none() {
        return Ok(Reach::Constant { shape, from });
    }
    left_on(sheet, shape, from)
}

// The refusal of a part that comes to nothing.
#[tactic(auto, using(crate::proofs::ReachLaws::why_laws))]
pub fn why_of(lack: Lack) -> Refusal
    ensures { result ≡ why_of lack }
{
    match lack {
        Lack::NoField => Refusal::UnknownFieldName,
        Lack::NoExtension(why) => why,
        Lack::OtherMessage(_) => Refusal::WrongExtensionType,
    }
}

// What a part that came to `step` and ends at `from` leads to.
#[tactic(auto, using(crate::proofs::ReachLaws::led_laws))]
fn led(
    sheet: &[u8],
    request: &[u8],
    step: Result<Declaration, Lack>,
    from: usize,
    to: usize,
) -> Result<Reach, Refusal>
    requires from_le_to { (from ≤ to) × (to ≤ length request.now) }
    requires step_lies { StepLies sheet.now step }
    ensures { result ≡ stepped (walking sheet.now) sheet.now request.now from to step }
{
    match step {
        Err(lack) => Err(why_of(lack)),
        Ok(declaration) => behind(sheet, request, declaration.shape, from, to),
    }
}

// What the part at a place leads to in a message.
#[tactic(auto, using(crate::proofs::ReachLaws::reach_laws))]
pub fn reach_of(
    sheet: &[u8],
    request: &[u8],
    scope: &[u8],
    message: &[u8],
    place: LookupScope,
    from: usize,
    to: usize,
) -> Result<Reach, Refusal>
    requires from_le_to { (from ≤ to) × (to ≤ length request.now) }
    requires option_parts { OptionParts request.now from to }
    requires scope_value { is_rel_or_empty scope.now ≡ true }
    requires in_sheet { InSheet sheet.now place }
    ensures is { result ≡ reach_of (walking sheet.now) sheet.now request.now scope.now
        (message_of message.now place) from to }
    ensures lies { Led sheet.now request.now from to result }
{
    let Some(part) = part_at(request, from, to) else {
        return Ok(Reach::Nothing);
    };
    let step = step_of(sheet, request, scope, message, place, part);
    led(sheet, request, step, part.name.to, to)
}
