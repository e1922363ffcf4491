// One option in the options message: a builtin, or the steps over the parts of its name.
ghost use Rattle.std.specs.Prelude.{◌≡◌, [], ◌+◌, ◌-◌, ◌^◌, ◌≤◌, ◌<◌, length};
ghost use Rattle.limits.specs.Figures.{most_options};
ghost use Rattle.octets.specs.inner.Laid.{Laid};
ghost use Rattle.field.specs.Leaf.{text, Lies};
ghost use Rattle.field.specs.Walk.{walk};
ghost use Rattle.request.specs.Name.{parts_in};
ghost use Rattle.optionform.specs.inner.Parts.{OptionParts, LastConstant};
ghost use Rattle.records.specs.Records.{encode};
ghost use Rattle.records.specs.inner.Emits.{bytes_most, Emits};
ghost use Rattle.lookups.specs.Lookups.{walking};
ghost use Rattle.builtins.specs.Builtins.{builtin_of};
ghost use Rattle.builtins.specs.inner.Inside.{InBuilt};
ghost use Rattle.options.specs.Settle.{settled_built, builtin_part};
ghost use Rattle.options.specs.inner.Written.{constant_at, option_made};
ghost use Rattle.options.specs.inner.Settling.{message_of, settled_at, parted, others_of, note_in, set_recs, settling_of, Started, Settleable};

use crate::by_name::put_option;
use builtins::{Built, builtin_of, put_builtin};
use faults::{Fault, cause_at};
use field::{Field, Span, field_at};
use reply::{Cause, Refusal};
use request::name::{Part, part_at};
use scope::lookup::LookupScope;

// What the options of a request start with: the scope and the path of the options type, where the options stand in the request, and where
// the options message stands in the sheet.
#[derive(Clone, Copy)]
pub struct Start {
    pub scope: Span,
    pub options_type: Span,
    pub options: usize,
    pub place: LookupScope,
}

// What an option comes to: the note of the builtin that it sets, its number and 1, or 0 where it sets none, and the place after what it wrote.
#[derive(Clone, Copy)]
pub struct Settling {
    pub note: usize,
    pub next: usize,
}

// The part that is the whole name of a builtin: a single direct one.
#[tactic(auto, using(crate::proofs::settle::BuiltinPartLaws::builtin_part_laws))]
fn builtin_part(request: &[u8], from: usize, to: usize) -> Option<Part>
    requires { (from ≤ to) × (to ≤ length request.now) }
    ensures { result ≡ parted (builtin_part (parts_in (walk request.now from to))) }
{
    let part = part_at(request, from, to)?;
    if part.extension {
        return None;
    }
    if part_at(request, part.name.to, to).is_some() {
        return None;
    }
    Some(part)
}

// What the constant behind a part comes to on the builtin of its name.
#[tactic(auto, using(crate::proofs::settle::BuiltinPartLaws::built_at_laws))]
fn built_at(
    sheet: &[u8],
    request: &[u8],
    start: Start,
    part: Part,
    to: usize,
) -> Result<Option<Built>, Refusal>
    requires started { Started sheet.now request.now start }
    requires lies { Lies part.name request.now }
    requires to_le_to { (part.name.to ≤ to) × (to ≤ length request.now) }
    requires last_constant { LastConstant request.now part.name.to to }
    ensures is { result ≡ builtin_of (walking sheet.now) sheet.now request.now
        (message_of request.now start) (text request.now part.name)
        (constant_at request.now part.name.to to) }
    ensures inside { InBuilt result request.now }
{
    let Some(field) = field_at(request, part.name.to, to) else {
        return Ok(None);
    };
    let name = start.options_type.from;
    let end = start.options_type.to;
    builtin_of(
        sheet,
        request,
        &request[name..end],
        start.place,
        part.name,
        field.tag,
        field.from,
        field.to,
    )
}

// What is answered of a builtin: nothing is written yet.
#[tactic(auto, using(crate::proofs::settle::SettleLaws::settled_built_laws))]
fn settled_built(
    built: Result<Option<Built>, Refusal>,
    option: usize,
    at: usize,
) -> Result<Settling, Cause>
    requires { option ≤ most_options }
    ensures { result ≡ settling_of option (note_in (settled_built [] built)) at (others_of (settled_built [] built)) }
{
    match built {
        Ok(None) => Ok(Settling { note: 0, next: at }),
        Ok(Some(built)) => Ok(Settling {
            note: built.shape.number as usize + 1,
            next: at,
        }),
        Err(why) => Err(cause_at(option, Fault { part: 0, why })),
    }
}

// The steps of an option that is no builtin, and what they write.
#[tactic(auto, using(crate::proofs::settle::SettleLaws::settle_named_laws))]
fn settle_named(
    sheet: &[u8],
    request: &[u8],
    start: Start,
    option: usize,
    from: usize,
    to: usize,
    out: &mut [u8],
    at: usize,
) -> Result<Settling, Cause>
    requires { Settleable sheet.now request.now start option from to at }
    ensures { Emits (settling_of option 0) (option_made (walking sheet.now) sheet.now request.now
        (text request.now start.scope) 0 (message_of request.now start) from to) (bytes_most (to - from))
        out.old at out.new result }
{
    let a = start.scope.from;
    let e = start.scope.to;
    let name = start.options_type.from;
    let end = start.options_type.to;
    match put_option(
        sheet,
        request,
        &request[a..e],
        &request[name..end],
        start.place,
        from,
        to,
        0,
        out,
        at,
    ) {
        Ok(next) => Ok(Settling { note: 0, next }),
        Err(fault) => Err(cause_at(option, fault)),
    }
}

// What the option from..to comes to, the one at that position, and what it writes: of a builtin nothing yet.
#[tactic(auto, using(crate::proofs::settle::SettleLaws::settle_laws))]
pub fn settle(
    sheet: &[u8],
    request: &[u8],
    start: Start,
    option: usize,
    from: usize,
    to: usize,
    out: &mut [u8],
    at: usize,
) -> Result<Settling, Cause>
    requires { Settleable sheet.now request.now start option from to at }
    ensures { Emits (settling_of option (note_in (settled_at (walking sheet.now) sheet.now request.now
        start from to)))
        (others_of (settled_at (walking sheet.now) sheet.now request.now start from to)) (bytes_most (to - from))
        out.old at out.new result }
{
    let Some(part) = builtin_part(request, from, to) else {
        return settle_named(sheet, request, start, option, from, to, out, at);
    };
    settled_built(built_at(sheet, request, start, part, to), option, at)
}

// The record of the builtin that the option from..to sets; of any other option nothing.
#[tactic(auto, using(crate::proofs::settle::SettleLaws::put_set_laws))]
pub fn put_set(
    sheet: &[u8],
    request: &[u8],
    start: Start,
    from: usize,
    to: usize,
    out: &mut [u8],
    at: usize,
) -> usize
    requires started { Started sheet.now request.now start }
    requires from_le_to { (from ≤ to) × (to ≤ length request.now) }
    requires option_parts { OptionParts request.now from to }
    requires request_bound { at + length request.now < 2 ^ 62 }
    ensures { Laid out.old at
        (encode (set_recs (settled_at (walking sheet.now) sheet.now request.now start from to)))
        out.new result }
{
    let Some(part) = builtin_part(request, from, to) else {
        return at;
    };
    put_builtin(request, built_at(sheet, request, start, part, to), out, at)
}
