// What a request comes to, measured before anything is written, and then written. It is measured in no room, which finds every refusal and
// the length.
ghost use Rattle.std.specs.Prelude.{◌≡◌, ◌≤◌, length, Ok};
ghost use Rattle.basis.specs.Kit.{sets};
ghost use Rattle.limits.specs.Figures.{most_options};
ghost use Rattle.requestform.specs.Form.{judge_request};
ghost use Rattle.records.specs.Records.{encode};
ghost use Rattle.lookups.specs.Lookups.{walking};
ghost use Rattle.known.specs.Known.{known_recs};
ghost use Rattle.options.specs.inner.Settling.{Started};
ghost use Rattle.options.specs.inner.Gathering.{gathered_by, knowns_of, FineFrom};
ghost use Rattle.options.specs.Steps.{steps_in, steps_of, resolving_tested};
ghost use Rattle.options.specs.inner.Measuring.{all_of, Opens, Counted, Tallies, Ready, Measures};
ghost use Rattle.reply.specs.Verdicts.{fine};

use crate::settle::Start;
use crate::{Tally, gather, put_known};
use reply::Cause;
use request::heading::heading_of;

// What there is to write: how many options there are, and how many bytes they come to.
#[derive(Clone, Copy)]
pub struct Measured {
    pub start: Start,
    pub count: usize,
    pub length: u32,
}

// What the options of a fine request start with.
#[tactic(auto, using(crate::proofs::OpenLaws::open_laws))]
fn open(sheet: &[u8], request: &[u8]) -> Result<Option<Start>, Cause>
    requires { judge_request request.now ≡ fine }
    ensures { Opens sheet.now request.now result }
{
    let Some(heading) = heading_of(request) else {
        return Ok(None);
    };
    if request.len() <= heading.options {
        return Ok(None);
    }
    let options_type = heading.options_type;
    let from = options_type.from;
    let to = options_type.to;
    let place = lookups::message(sheet, &request[from..to])?;
    Ok(Some(Start {
        scope: heading.scope,
        options_type,
        options: heading.options,
        place,
    }))
}

// What the options come to, and how many bytes the others have: they are gathered in no room to speak of.
#[tactic(auto, using(crate::proofs::MeasureLaws::gather_length_laws))]
fn gather_length(
    sheet: &[u8],
    request: &[u8],
    start: Start,
    notes: &mut [usize],
) -> Result<Tally, Cause>
    requires started { Started sheet.now request.now start }
    requires fine_from { FineFrom request.now start }
    requires most_options_in_bounds { most_options ≤ length notes.old }
    ensures { Tallies sheet.now request.now notes.new start result }
{
    let mut none = [0u8; 1];
    gather(sheet, request, start, notes, &mut none, 0)
}

// How many bytes the known builtins have, likewise.
#[tactic(auto, using(crate::proofs::MeasureLaws::known_length_laws))]
fn known_length(sheet: &[u8], request: &[u8], start: Start, notes: &[usize], count: usize) -> usize
    requires counted { Counted sheet.now request.now notes.now start count }
    requires started { Started sheet.now request.now start }
    requires fine_from { FineFrom request.now start }
    requires most_options_in_bounds { most_options ≤ length notes.now }
    ensures { result ≡ length (encode (known_recs (knowns_of (gathered_by (walking sheet.now) sheet.now
        request.now start)))) }
{
    let mut none = [0u8; 1];
    put_known(sheet, request, start, notes, count, &mut none, 0)
}

// The options measured.
#[tactic(auto, using(crate::proofs::MeasureLaws::measure_from_laws))]
fn measure_from(
    sheet: &[u8],
    request: &[u8],
    start: Start,
    notes: &mut [usize],
) -> Result<Option<Measured>, Cause>
    requires started { Started sheet.now request.now start }
    requires fine_from { FineFrom request.now start }
    requires most_options_in_bounds { most_options ≤ length notes.old }
    ensures { Measures sheet.now request.now
        (steps_in (gathered_by (walking sheet.now) sheet.now request.now start)) notes.new result }
{
    let tally = gather_length(sheet, request, start, notes)?;
    let known = known_length(sheet, request, start, notes, tally.count);
    Ok(Some(Measured {
        start,
        count: tally.count,
        length: (known + tally.end) as u32,
    }))
}

// The verdict on a fine request.
#[tactic(auto, using(crate::proofs::MeasureLaws::measure_all_laws))]
fn measure_all(sheet: &[u8], request: &[u8], notes: &mut [usize]) -> Result<Option<Measured>, Cause>
    requires request_value { judge_request request.now ≡ fine }
    requires most_options_in_bounds { most_options ≤ length notes.old }
    ensures { Measures sheet.now request.now
        (steps_of (walking sheet.now) sheet.now request.now) notes.new result }
{
    let Some(start) = open(sheet, request)? else {
        return Ok(None);
    };
    measure_from(sheet, request, start, notes)
}

// The verdict on a request under a sheet whose form was tested before: of that its length alone is tested here.
#[tactic(auto, using(crate::proofs::MeasureLaws::measure_tested_laws))]
pub fn measure_tested(
    sheet: &[u8],
    request: &[u8],
    notes: &mut [usize],
) -> Result<Option<Measured>, Cause>
    requires { most_options ≤ length notes.old }
    ensures { Measures sheet.now request.now (resolving_tested sheet.now request.now)
        notes.new result }
{
    sheetform::check_length(sheet)?;
    requestform::check_request(request)?;
    measure_all(sheet, request, notes)
}

// The records of what was measured: the known builtins first, then the others in order of writing.
#[tactic(auto, using(crate::proofs::PutLaws::put_records_laws))]
pub fn put_records(
    sheet: &[u8],
    request: &[u8],
    measured: Measured,
    notes: &mut [usize],
    out: &mut [u8],
)
    requires ready { Ready sheet.now request.now notes.old measured }
    requires most_options_in_bounds { most_options ≤ length notes.old }
    ensures { out.new ≡ sets out.old 0
        (encode (all_of (gathered_by (walking sheet.now) sheet.now request.now measured.start))) }
{
    let start = measured.start;
    let next = put_known(sheet, request, start, notes, measured.count, out, 0);
    let _ = gather(sheet, request, start, notes, out, next);
}
