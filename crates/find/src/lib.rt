// The public search: of a sheet, a scope and a path, the extension that the path finds there.
#![tactic(auto)]

ghost use Rattle.std.specs.Prelude.{◌≡◌, ◌-◌};
ghost use Rattle.reply.specs.Outcome.{Answered, give};
ghost use Rattle.field.specs.Part.{PartOf};
ghost use Rattle.find.specs.Find.{finding, finding_tested, words_of, find_words, find_tested, name_span, name_span_for};
ghost use Rattle.find.specs.inner.Small.{SmallSpan, Small};

use field::Span;
use field::part::{none_of, span_in};
use reply::{Answer, Refusal};
use search::extension::Found;

// The extension, or why there is none: that the sheet is too long, the first fault of the scope and the path, or that no scope declares it.
// The form of the sheet was tested before.
#[tactic(auto, using(crate::proofs::FindingLaws::finding_laws))]
fn finding_tested(sheet: &[u8], scope: &[u8], path: &[u8]) -> Result<Found, Refusal>
    ensures { result ≡ finding_tested sheet.now scope.now path.now }
{
    sheetform::check_length(sheet)?;
    requestform::check_scope(scope)?;
    requestform::check_path(path)?;
    lookups::extension_named(sheet, scope, path)
}

// Where a span starts, as a word.
fn place(p: Span) -> u32
    requires { SmallSpan p }
    ensures { result ≡ p.from }
{
    p.from as u32
}

// How long a span is, as a word.
fn size(p: Span) -> u32
    requires { SmallSpan p }
    ensures { result ≡ p.to - p.from }
{
    (p.to - p.from) as u32
}

// The ten words of an extension, where there is room for them.
#[tactic(auto, using(crate::proofs::FindLaws::put_found_laws))]
fn put_found(found: Found, out: &mut [u32]) -> Answer
    requires { Small found }
    ensures { Answered (give (words_of found)) out.old out.new result }
{
    let words = [
        found.file as u32,
        place(found.declaration.name),
        size(found.declaration.name),
        place(found.declaration.extendee),
        size(found.declaration.extendee),
        found.declaration.shape.number,
        found.declaration.shape.typ as u32,
        found.declaration.shape.label as u32,
        place(found.declaration.shape.path),
        size(found.declaration.shape.path),
    ];
    emit::give_words(&words, out)
}

// As `find`, of a sheet whose form was tested before, for whoever asks many times of one sheet: of that its length alone is tested here.
#[tactic(auto, using(crate::proofs::FindLaws::find_tested_laws))]
pub fn find_tested(sheet: &[u8], scope: &[u8], path: &[u8], out: &mut [u32]) -> Answer
    ensures { Answered (find_tested sheet.now scope.now path.now)
        out.old out.new result }
{
    match finding_tested(sheet, scope, path) {
        Err(why) => reply::refused(why),
        Ok(found) => put_found(found, out),
    }
}

// File index, place and length of the name, place and length of the extendee, number, type, label, place and length of the type path.
#[tactic(auto, using(crate::proofs::FindLaws::find_laws))]
pub fn find(sheet: &[u8], scope: &[u8], path: &[u8], out: &mut [u32]) -> Answer
    ensures { Answered (find_words sheet.now scope.now path.now)
        out.old out.new result }
{
    if let Err(why) = sheetform::check_sheet(sheet) {
        return reply::refused(why);
    }
    find_tested(sheet, scope, path, out)
}

// The found extension's name, as the sheet's own bytes; no bytes where there is none.
#[tactic(auto, using(crate::proofs::FindLaws::name_in_laws))]
fn name_in<'s, 'r>(sheet: &'s [u8], scope: &'r [u8], path: &'r [u8]) -> &'s [u8]
    ensures { PartOf (name_span (finding sheet.now scope.now path.now))
        sheet.now sheet.entry.ref_ptr.0 sheet.entry.ref_ptr.1 result.now result.ref_ptr.0 result.ref_ptr.1 }
{
    if let Err(_) = sheetform::check_sheet(sheet) {
        return none_of(sheet);
    }
    let Ok(found) = finding_tested(sheet, scope, path) else {
        return none_of(sheet);
    };
    let name = found.declaration.name;
    &sheet[name.from..name.to]
}

// The name of the extension that a path of the request finds in a scope of the request, as the sheet's own bytes; no bytes where `find`
// refuses, or a span is none of the request.
#[tactic(auto, using(crate::proofs::FindLaws::found_name_laws))]
pub fn found_name<'s, 'r>(sheet: &'s [u8], request: &'r [u8], scope: Span, path: Span) -> &'s [u8]
    ensures { PartOf (name_span_for sheet.now request.now scope path)
        sheet.now sheet.entry.ref_ptr.0 sheet.entry.ref_ptr.1 result.now result.ref_ptr.0 result.ref_ptr.1 }
{
    let Some(scope) = span_in(request, scope) else {
        return none_of(sheet);
    };
    let Some(path) = span_in(request, path) else {
        return none_of(sheet);
    };
    name_in(
        sheet,
        &request[scope.from..scope.to],
        &request[path.from..path.to],
    )
}
