// The value query: of a sheet, an options type, a name and option bytes, the record that the name leads to. The name becomes a list of
// declarations first, no option byte being read; then the rows are followed by them in one pass.
#![tactic(auto)]

ghost use Rattle.std.specs.Prelude.{◌≡◌, ◌*◌, ◌≤◌, length, Ok};
ghost use Rattle.limits.specs.Figures.{most_option_bytes, most_levels, most_parts};
ghost use Rattle.reply.specs.Outcome.{Answered, give};
ghost use Rattle.sheetform.specs.Form.{judge_length};
ghost use Rattle.requestform.specs.Form.{judge_name};
ghost use Rattle.scope.specs.inner.Answers.{InSheet};
ghost use Rattle.lookups.specs.Lookups.{walking};
ghost use Rattle.entries.specs.Tree.{words};
ghost use Rattle.entries.specs.Reading.{reading};
ghost use Rattle.entries.specs.inner.Fronts.{message as message_of};
ghost use Rattle.levels.specs.inner.Stack.{stack_words};
ghost use Rattle.levels.specs.inner.Left.{Open, left, flat};
ghost use Rattle.query.specs.Query.{query_tested, query as query_of};
ghost use Rattle.following.specs.inner.Keys.{key_words};
ghost use Rattle.following.specs.inner.Following.{nothing_yet};
ghost use Rattle.query.specs.inner.Answering.{seen_in, count_of, settled, queried, outcome_of, admitted};
ghost use Rattle.reply.specs.Verdicts.{fine};

use entries::Row;
use following::follow;
use levels::{Cursor, STACK_WORDS, next, start};
use limits::MOST_PARTS;
use naming::{Naming, declare};
use payload::check_bytes;
use reply::{Answer, Cause, Refusal};
use requestform::{check_name, check_options_type};
use rows::put_row;
use scope::lookup::LookupScope;

// So many words are the keys of all parts.
const KEY_WORDS: usize = MOST_PARTS * 2;

// The rows that are left, followed.
#[tactic(auto, using(crate::proofs::SeenLaws::seeing_laws))]
fn follow_rows(
    sheet: &[u8],
    options_type: &[u8],
    bytes: &[u8],
    stack: &mut [usize],
    from: Cursor,
    keys: &[usize],
    count: usize,
) -> Result<Option<Row>, Cause>
    requires fact { Open sheet.now bytes.now stack.old from }
    requires key_words_in_bounds { count * key_words ≤ length keys.now }
    ensures { result ≡ seen_in keys.now count nothing_yet (left (walking sheet.now) sheet.now
        options_type.now bytes.now stack.old from.depth from.at) }
{
    let mut cursor = from;
    let mut matched = 0;
    let mut counts = false;
    let mut best = None;
    loop {
        match next(sheet, options_type, bytes, stack, cursor) {
            Ok(None) => {
                if counts {
                    return Ok(best);
                }
                return Ok(None);
            }
            Err(why) => return Err(reply::bare(why)),
            Ok(Some(event)) => {
                let row = event.row;
                let level = row.level as usize;
                let step = follow(keys, count, matched, counts, level, row.entry.by);
                if step.takes {
                    best = Some(row);
                }
                matched = step.matched;
                counts = step.counts;
                cursor = event.rest;
            }
        }
    }
}

// How many parts a name has to be followed by: none where it is refused, or parts are left on a group.
fn count_of(naming: Result<Naming, Cause>) -> usize
    ensures { result ≡ count_of naming }
{
    match naming {
        Ok(Naming::Parts(count)) => count,
        _ => 0,
    }
}

// The best row, where the name comes to its parts; or the name's refusal, at its part.
#[tactic(auto, using(crate::proofs::SeenLaws::name_settle_laws))]
fn settle(naming: Result<Naming, Cause>, best: Option<Row>) -> Result<Option<Row>, Cause>
    ensures { result ≡ settled naming best }
{
    match naming? {
        Naming::Parts(_) => Ok(best),
        Naming::Group => Ok(None),
    }
}

// All rows of option bytes in the message at that place, followed.
#[tactic(auto, using(crate::proofs::SeenLaws::see_rows_laws))]
fn see_rows(
    sheet: &[u8],
    options_type: &[u8],
    place: LookupScope,
    bytes: &[u8],
    stack: &mut [usize],
    keys: &[usize],
    count: usize,
) -> Result<Option<Row>, Cause>
    requires in_sheet { InSheet sheet.now place }
    requires bytes_len_bound { length bytes.now ≤ most_option_bytes }
    requires stack_len { length stack.old ≡ stack_words }
    requires key_words_in_bounds { count * key_words ≤ length keys.now }
    ensures { result ≡ seen_in keys.now count nothing_yet (flat 0 (reading (walking sheet.now) sheet.now
        most_levels (message_of options_type.now place) 0 bytes.now)) }
{
    let cursor = start(bytes, stack, place);
    follow_rows(sheet, options_type, bytes, stack, cursor, keys, count)
}

// The row that a name leads to, with room for the levels and for the keys.
#[tactic(auto, using(crate::proofs::SeenLaws::query_over_laws))]
fn query_over(
    sheet: &[u8],
    options_type: &[u8],
    place: LookupScope,
    name: &[u8],
    bytes: &[u8],
    stack: &mut [usize],
    keys: &mut [usize],
) -> Result<Option<Row>, Cause>
    requires in_sheet { InSheet sheet.now place }
    requires bytes_len_bound { length bytes.now ≤ most_option_bytes }
    requires stack_len { length stack.old ≡ stack_words }
    requires keys_len { length keys.old ≡ most_parts * key_words }
    requires name_value { judge_name name.now ≡ fine }
    ensures { result ≡ queried (walking sheet.now) sheet.now name.now
        (message_of options_type.now place) bytes.now }
{
    let naming = declare(sheet, name, &name[..0], options_type, place, 0, 0, keys);
    let count = count_of(naming);
    let best = see_rows(sheet, options_type, place, bytes, stack, keys, count)?;
    settle(naming, best)
}

// The row that a name leads to.
fn query_in(
    sheet: &[u8],
    options_type: &[u8],
    place: LookupScope,
    name: &[u8],
    bytes: &[u8],
) -> Result<Option<Row>, Cause>
    requires in_sheet { InSheet sheet.now place }
    requires bytes_len_bound { length bytes.now ≤ most_option_bytes }
    requires name_value { judge_name name.now ≡ fine }
    ensures { result ≡ queried (walking sheet.now) sheet.now name.now
        (message_of options_type.now place) bytes.now }
{
    let mut stack = [0usize; STACK_WORDS];
    let mut keys = [0usize; KEY_WORDS];
    query_over(
        sheet,
        options_type,
        place,
        name,
        bytes,
        &mut stack,
        &mut keys,
    )
}

// The eight words of a row, where there is room for them.
#[tactic(auto, using(crate::proofs::CallLaws::give_row_laws))]
fn give_row(row: Row, out: &mut [u32]) -> Answer
    ensures { Answered (give (words row)) out.old out.new result }
{
    if out.len() < 8 {
        return reply::refused(Refusal::NoRoom);
    }
    put_row(out, 0, row);
    reply::done(8)
}

// The answer of what was seen.
#[tactic(auto, using(crate::proofs::CallLaws::seen_answer_laws))]
fn answer_of(seen: Result<Option<Row>, Cause>, out: &mut [u32]) -> Answer
    ensures { Answered (outcome_of seen) out.old out.new result }
{
    match seen {
        Err(cause) => reply::refused_for(cause),
        Ok(None) => reply::absent(),
        Ok(Some(row)) => give_row(row, out),
    }
}

// The message that the options type is, or why there is none: that the sheet is too long, the first fault of the options type, the name
// and the length of the option bytes, or its look-up. The form of the sheet was tested before.
#[tactic(auto, using(crate::proofs::CallLaws::query_message_laws))]
fn options_message(
    sheet: &[u8],
    options_type: &[u8],
    name: &[u8],
    bytes: &[u8],
) -> Result<LookupScope, Refusal>
    ensures { result ≡ admitted (judge_length sheet.now) sheet.now options_type.now name.now
        bytes.now }
{
    sheetform::check_length(sheet)?;
    check_options_type(options_type)?;
    check_name(name)?;
    check_bytes(bytes)?;
    lookups::message(sheet, options_type)
}

// As `query`, of a sheet whose form was tested before, for whoever asks many times of one sheet: of that its length alone is tested here.
#[tactic(auto, using(crate::proofs::CallLaws::query_tested_laws))]
pub fn query_tested(
    sheet: &[u8],
    options_type: &[u8],
    name: &[u8],
    bytes: &[u8],
    out: &mut [u32],
) -> Answer
    ensures { Answered (query_tested sheet.now options_type.now name.now bytes.now)
        out.old out.new result }
{
    match options_message(sheet, options_type, name, bytes) {
        Err(why) => reply::refused(why),
        Ok(place) => answer_of(query_in(sheet, options_type, place, name, bytes), out),
    }
}

// The eight words of the record that a name leads to in option bytes, or Absent.
#[tactic(auto, using(crate::proofs::CallLaws::query_laws))]
pub fn query(
    sheet: &[u8],
    options_type: &[u8],
    name: &[u8],
    bytes: &[u8],
    out: &mut [u32],
) -> Answer
    ensures { Answered (query_of sheet.now options_type.now name.now bytes.now)
        out.old out.new result }
{
    if let Err(why) = sheetform::check_sheet(sheet) {
        return reply::refused(why);
    }
    query_tested(sheet, options_type, name, bytes, out)
}
