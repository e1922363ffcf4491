// The C boundary: each public call under the name `opt_` and its own, for C, which passes a slice as a pointer and how many elements there
// are. include/opt.h declares these functions a second time, by hand. Each has the contract of the call that it hands on, word for word, and
// asks nothing: NULL with a count of 0 is a slice of none.
#![tactic(auto)]

ghost use Rattle.std.specs.Prelude.{◌≡◌};
ghost use Rattle.reply.specs.Outcome.{Answered};
ghost use Rattle.reply.specs.Verdicts.{answer_for};
ghost use Rattle.sheetform.specs.Form.{judge_sheet};
ghost use Rattle.requestform.specs.Form.{judge_request};
ghost use Rattle.options.specs.Resolve.{resolve_bytes, resolve_tested};
ghost use Rattle.find.specs.Find.{find_words, find_tested};
ghost use Rattle.listing.specs.Listing.{listing, listing_tested};
ghost use Rattle.query.specs.Query.{query, query_tested};
ghost use Rattle.payload.specs.Payload.{payload_answer};
ghost use Rattle.ranges.specs.Ranges.{lower_ranges};
ghost use Rattle.oneofs.specs.Fields.{lower_fields, lower_fields_by};
ghost use Rattle.evolution.specs.Calls.{clean_answer, contained_answer};

use reply::Answer;

#[unsafe(no_mangle)]
pub extern "C" fn opt_sheet(sheet: &[u8]) -> Answer
    ensures { result ≡ answer_for 0 (judge_sheet sheet.now) }
{
    reply::answer_for(0, sheetform::check_sheet(sheet))
}

#[unsafe(no_mangle)]
pub extern "C" fn opt_request(request: &[u8]) -> Answer
    ensures { result ≡ answer_for 0 (judge_request request.now) }
{
    reply::answer_for(0, requestform::check_request(request))
}

#[unsafe(no_mangle)]
pub extern "C" fn opt_resolve(sheet: &[u8], request: &[u8], out: &mut [u8]) -> Answer
    ensures { Answered (resolve_bytes sheet.now request.now) out.old out.new result }
{
    resolver::resolve(sheet, request, out)
}

#[unsafe(no_mangle)]
pub extern "C" fn opt_resolve_tested(sheet: &[u8], request: &[u8], out: &mut [u8]) -> Answer
    ensures { Answered (resolve_tested sheet.now request.now) out.old out.new result }
{
    resolver::resolve_tested(sheet, request, out)
}

#[unsafe(no_mangle)]
pub extern "C" fn opt_find(sheet: &[u8], scope: &[u8], path: &[u8], out: &mut [u32]) -> Answer
    ensures { Answered (find_words sheet.now scope.now path.now)
        out.old out.new result }
{
    find::find(sheet, scope, path, out)
}

#[unsafe(no_mangle)]
pub extern "C" fn opt_find_tested(
    sheet: &[u8],
    scope: &[u8],
    path: &[u8],
    out: &mut [u32],
) -> Answer
    ensures { Answered (find_tested sheet.now scope.now path.now)
        out.old out.new result }
{
    find::find_tested(sheet, scope, path, out)
}

#[unsafe(no_mangle)]
pub extern "C" fn opt_list(
    sheet: &[u8],
    options_type: &[u8],
    bytes: &[u8],
    out: &mut [u32],
) -> Answer
    ensures { Answered (listing sheet.now options_type.now bytes.now)
        out.old out.new result }
{
    listing::list(sheet, options_type, bytes, out)
}

#[unsafe(no_mangle)]
pub extern "C" fn opt_list_tested(
    sheet: &[u8],
    options_type: &[u8],
    bytes: &[u8],
    out: &mut [u32],
) -> Answer
    ensures { Answered (listing_tested sheet.now options_type.now bytes.now)
        out.old out.new result }
{
    listing::list_tested(sheet, options_type, bytes, out)
}

#[unsafe(no_mangle)]
pub extern "C" fn opt_query(
    sheet: &[u8],
    options_type: &[u8],
    name: &[u8],
    bytes: &[u8],
    out: &mut [u32],
) -> Answer
    ensures { Answered (query sheet.now options_type.now name.now bytes.now)
        out.old out.new result }
{
    query::query(sheet, options_type, name, bytes, out)
}

#[unsafe(no_mangle)]
pub extern "C" fn opt_query_tested(
    sheet: &[u8],
    options_type: &[u8],
    name: &[u8],
    bytes: &[u8],
    out: &mut [u32],
) -> Answer
    ensures { Answered (query_tested sheet.now options_type.now name.now bytes.now)
        out.old out.new result }
{
    query::query_tested(sheet, options_type, name, bytes, out)
}

// A part of the option bytes cannot be handed to C: the answer alone, and the header has the pointer.
#[unsafe(no_mangle)]
pub extern "C" fn opt_payload(bytes: &[u8], place: u64, length: u64) -> Answer
    ensures { result ≡ payload_answer bytes.now place length }
{
    payload::payload_answer(bytes, place as usize, length as usize)
}

#[unsafe(no_mangle)]
pub extern "C" fn opt_ranges(kind: u32, words: &[i32], out: &mut [i32]) -> Answer
    ensures { Answered (lower_ranges kind words.now) out.old out.new result }
{
    ranges::lower_ranges(kind, words, out)
}

#[unsafe(no_mangle)]
pub extern "C" fn opt_fields(words: &[u32], out: &mut [u32]) -> Answer
    ensures { Answered (lower_fields words.now) out.old out.new result }
{
    oneofs::lower_fields(words, out)
}

#[unsafe(no_mangle)]
pub extern "C" fn opt_fields_by(numbering: u32, words: &[u32], out: &mut [u32]) -> Answer
    ensures { Answered (lower_fields_by numbering words.now) out.old out.new result }
{
    oneofs::lower_fields_by(numbering, words, out)
}

#[unsafe(no_mangle)]
pub extern "C" fn opt_clean(sheet: &[u8]) -> Answer
    ensures { result ≡ clean_answer sheet.now }
{
    evolution::clean(sheet)
}

#[unsafe(no_mangle)]
pub extern "C" fn opt_contained(older: &[u8], newer: &[u8]) -> Answer
    ensures { result ≡ contained_answer older.now newer.now }
{
    evolution::contained(older, newer)
}
