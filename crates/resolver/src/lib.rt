// The calls of the resolver: `resolve`, the bytes of the options of a request under a sheet, and `verdict`, what `resolve` would answer with
// room enough. What there is to write is measured first, which finds every refusal and the length; the lent memory is not lent to that. So a
// refusal writes nothing, and NoRoom comes last.
#![tactic(auto)]

ghost use Rattle.std.specs.Prelude.{◌≡◌, ◌≤◌, length};
ghost use Rattle.limits.specs.Figures.{most_options};
ghost use Rattle.reply.specs.Outcome.{Answered};
ghost use Rattle.lookups.specs.Lookups.{walking};
ghost use Rattle.options.specs.inner.Gathering.{gathered_by};
ghost use Rattle.options.specs.Steps.{steps_in, resolving, resolving_tested};
ghost use Rattle.options.specs.inner.Measuring.{Ready};
ghost use Rattle.options.specs.Resolve.{outcome_of, judged_of, resolve_bytes, resolve_tested};
ghost use Rattle.resolver.specs.inner.Judging.{judged_by};

use judged::answer_in;
use limits::MOST_OPTIONS;
use options::measure::{Measured, measure_tested, put_records};
use reply::{Answer, Cause};

// What was measured, written to as much of the lent memory as the answer says: to none of it where there is no room for all.
#[tactic(auto, using(crate::proofs::WriteLaws::write_laws))]
fn write(
    sheet: &[u8],
    request: &[u8],
    measured: Measured,
    notes: &mut [usize],
    out: &mut [u8],
) -> Answer
    requires ready { Ready sheet.now request.now notes.old measured }
    requires most_options_in_bounds { most_options ≤ length notes.old }
    ensures { Answered (outcome_of (steps_in (gathered_by (walking sheet.now) sheet.now request.now
        measured.start))) out.old out.new result }
{
    let room = out.len();
    let answer = answer_in(room, Ok(Some(measured.length)));
    let granted = answer.length as usize;
    put_records(sheet, request, measured, notes, &mut out[..granted]);
    answer
}

// The answer of `resolve_tested`, with room for a note an option.
#[tactic(auto, using(crate::proofs::WriteLaws::over_laws))]
fn resolve_over(sheet: &[u8], request: &[u8], notes: &mut [usize], out: &mut [u8]) -> Answer
    requires { most_options ≤ length notes.old }
    ensures { Answered (resolve_tested sheet.now request.now) out.old out.new result }
{
    match measure_tested(sheet, request, notes) {
        Ok(None) => answer_in(out.len(), Ok(None)),
        Err(cause) => answer_in(out.len(), Err(cause)),
        Ok(Some(measured)) => write(sheet, request, measured, notes, out),
    }
}

// As `resolve`, of a sheet whose form was tested before, for whoever asks many times of one sheet: of that its length alone is tested here.
pub fn resolve_tested(sheet: &[u8], request: &[u8], out: &mut [u8]) -> Answer
    ensures { Answered (resolve_tested sheet.now request.now) out.old out.new result }
{
    let mut notes = [0usize; MOST_OPTIONS];
    resolve_over(sheet, request, &mut notes, out)
}

// The bytes of the options of a request, under a sheet.
#[tactic(auto, using(crate::proofs::CallLaws::resolve_laws))]
pub fn resolve(sheet: &[u8], request: &[u8], out: &mut [u8]) -> Answer
    ensures { Answered (resolve_bytes sheet.now request.now) out.old out.new result }
{
    if let Err(why) = sheetform::check_sheet(sheet) {
        return reply::refused(why);
    }
    resolve_tested(sheet, request, out)
}

// The verdict that was measured.
#[tactic(auto, using(crate::proofs::CallLaws::judged_by_laws))]
fn judged_by(measure: Result<Option<Measured>, Cause>) -> Result<Option<u32>, Cause>
    ensures { result ≡ judged_by measure }
{
    let Some(measured) = measure? else {
        return Ok(None);
    };
    Ok(Some(measured.length))
}

// As `verdict`, of a sheet whose form was tested before: of that its length alone is tested here.
#[tactic(auto, using(crate::proofs::CallLaws::verdict_tested_laws))]
pub fn verdict_tested(sheet: &[u8], request: &[u8]) -> Result<Option<u32>, Cause>
    ensures { result ≡ judged_of (resolving_tested sheet.now request.now) }
{
    let mut notes = [0usize; MOST_OPTIONS];
    judged_by(measure_tested(sheet, request, &mut notes))
}

// What `resolve` would answer with room enough, and where a request is refused.
#[tactic(auto, using(crate::proofs::CallLaws::verdict_laws))]
pub fn verdict(sheet: &[u8], request: &[u8]) -> Result<Option<u32>, Cause>
    ensures { result ≡ judged_of (resolving sheet.now request.now) }
{
    sheetform::check_sheet(sheet)?;
    verdict_tested(sheet, request)
}
