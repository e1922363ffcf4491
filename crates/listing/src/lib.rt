// The call `list`: the records of option bytes under a sheet, eight words a record. They are counted first, which finds the first fault,
// and then written over the lent memory, so that a refusal writes nothing and NoRoom comes last.
#![tactic(auto)]

ghost use Rattle.std.specs.Prelude.{◌≡◌, ◌*◌, ◌≤◌, length};
ghost use Rattle.limits.specs.Figures.{most_option_bytes, most_levels};
ghost use Rattle.reply.specs.Outcome.{Answered};
ghost use Rattle.sheetform.specs.Form.{judge_length};
ghost use Rattle.scope.specs.inner.Answers.{InSheet};
ghost use Rattle.lookups.specs.Lookups.{walking};
ghost use Rattle.entries.specs.Reading.{reading};
ghost use Rattle.entries.specs.inner.Fronts.{message as message_of};
ghost use Rattle.emit.specs.inner.Puts.{Puts};
ghost use Rattle.levels.specs.inner.Stack.{stack_words};
ghost use Rattle.levels.specs.inner.Left.{flat};
ghost use Rattle.listing.specs.Listing.{listing_tested, listing};
ghost use Rattle.listing.specs.inner.Worded.{worded, WroteAtMost};
ghost use Rattle.listing.specs.inner.Admitted.{counted, admitted};

use levels::{STACK_WORDS, next, start};
use payload::check_bytes;
use reply::{Answer, Cause, Refusal};
use requestform::check_options_type;
use rows::put_row;
use scope::lookup::LookupScope;

// The rows of option bytes in the message at that place, from the front of the lent memory on, as far as there is room.
#[tactic(auto, using(crate::proofs::RowLaws::rowing_laws))]
fn put_rows(
    sheet: &[u8],
    options_type: &[u8],
    place: LookupScope,
    bytes: &[u8],
    stack: &mut [usize],
    out: &mut [u32],
) -> Result<usize, Cause>
    requires in_sheet { InSheet sheet.now place }
    requires bytes_len_bound { length bytes.now ≤ most_option_bytes }
    requires stack_len { length stack.old ≡ stack_words }
    ensures puts { Puts (worded (flat 0 (reading (walking sheet.now) sheet.now most_levels
        (message_of options_type.now place) 0 bytes.now))) 0 out.old out.new result }
    ensures few { WroteAtMost (8 * length bytes.now) result }
{
    let mut cursor = start(bytes, stack, place);
    let mut n = 0;
    loop {
        match next(sheet, options_type, bytes, stack, cursor) {
            Ok(None) => return Ok(n),
            Err(why) => return Err(reply::bare(why)),
            Ok(Some(event)) => {
                n = put_row(out, n, event.row);
                cursor = event.rest;
            }
        }
    }
}

// How many words these rows have, or the first fault: they are written in no room to speak of.
#[tactic(auto, using(crate::proofs::CountLaws::words_counted))]
fn count_words(
    sheet: &[u8],
    options_type: &[u8],
    place: LookupScope,
    bytes: &[u8],
    stack: &mut [usize],
) -> Result<usize, Cause>
    requires in_sheet { InSheet sheet.now place }
    requires bytes_len_bound { length bytes.now ≤ most_option_bytes }
    requires stack_len { length stack.old ≡ stack_words }
    ensures counts { result ≡ counted (worded (flat 0 (reading (walking sheet.now) sheet.now most_levels
        (message_of options_type.now place) 0 bytes.now))) }
    ensures few { WroteAtMost (8 * length bytes.now) result }
{
    let mut none = [0u32; 1];
    put_rows(sheet, options_type, place, bytes, stack, &mut none)
}

// The answer of the call, with room for the levels.
#[tactic(auto, using(crate::proofs::CountLaws::over_laws))]
fn list_over(
    sheet: &[u8],
    options_type: &[u8],
    place: LookupScope,
    bytes: &[u8],
    stack: &mut [usize],
    out: &mut [u32],
) -> Answer
    requires in_sheet { InSheet sheet.now place }
    requires bytes_len_bound { length bytes.now ≤ most_option_bytes }
    requires stack_len { length stack.old ≡ stack_words }
    ensures { Answered (worded (flat 0 (reading (walking sheet.now) sheet.now most_levels
        (message_of options_type.now place) 0 bytes.now))) out.old out.new result }
{
    match count_words(sheet, options_type, place, bytes, stack) {
        Err(cause) => reply::refused_for(cause),
        Ok(n) => {
            if out.len() < n {
                return reply::refused(Refusal::NoRoom);
            }
            let _ = put_rows(sheet, options_type, place, bytes, stack, out);
            reply::done(n as u32)
        }
    }
}

// The answer of the call, for the message at that place.
fn list_in(
    sheet: &[u8],
    options_type: &[u8],
    place: LookupScope,
    bytes: &[u8],
    out: &mut [u32],
) -> Answer
    requires in_sheet { InSheet sheet.now place }
    requires bytes_len_bound { length bytes.now ≤ most_option_bytes }
    ensures { Answered (worded (flat 0 (reading (walking sheet.now) sheet.now most_levels
        (message_of options_type.now place) 0 bytes.now))) out.old out.new result }
{
    let mut stack = [0usize; STACK_WORDS];
    list_over(sheet, options_type, place, bytes, &mut stack, out)
}

// The message that the options type is, or why there is none: that the sheet is too long, the first fault of the options type and the
// length of the option bytes, or its look-up. The form of the sheet was tested before.
#[tactic(auto, using(crate::proofs::ListingLaws::message_laws))]
fn options_message(sheet: &[u8], options_type: &[u8], bytes: &[u8]) -> Result<LookupScope, Refusal>
    ensures { result ≡ admitted (judge_length sheet.now) sheet.now options_type.now bytes.now }
{
    sheetform::check_length(sheet)?;
    check_options_type(options_type)?;
    check_bytes(bytes)?;
    lookups::message(sheet, options_type)
}

// As `list`, of a sheet whose form was tested before, for whoever asks many times of one sheet: of that its length alone is tested here.
#[tactic(auto, using(crate::proofs::ListingLaws::list_tested_laws))]
pub fn list_tested(sheet: &[u8], options_type: &[u8], bytes: &[u8], out: &mut [u32]) -> Answer
    ensures { Answered (listing_tested sheet.now options_type.now bytes.now)
        out.old out.new result }
{
    match options_message(sheet, options_type, bytes) {
        Err(why) => reply::refused(why),
        Ok(place) => list_in(sheet, options_type, place, bytes, out),
    }
}

// The records of option bytes under a sheet, eight words a record: level, number, type, wire type, place and length of the payload, value
// low, value high.
#[tactic(auto, using(crate::proofs::ListingLaws::list_laws))]
pub fn list(sheet: &[u8], options_type: &[u8], bytes: &[u8], out: &mut [u32]) -> Answer
    ensures { Answered (listing sheet.now options_type.now bytes.now)
        out.old out.new result }
{
    if let Err(why) = sheetform::check_sheet(sheet) {
        return reply::refused(why);
    }
    list_tested(sheet, options_type, bytes, out)
}
