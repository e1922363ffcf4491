// An option by the parts of its name: they are gone through, each inside the message that the one before it leads to, and the constant is
// written on the last.
ghost use Rattle.std.specs.Prelude.{◌+◌, ◌-◌, ◌≤◌, length};
ghost use Rattle.field.specs.Leaf.{Lies};
ghost use Rattle.records.specs.Made.{holding};
ghost use Rattle.records.specs.inner.Emits.{bytes_most, Emits, Roomy};
ghost use Rattle.lookups.specs.Lookups.{walking};
ghost use Rattle.steps.specs.inner.Reached.{message as message_of};
ghost use Rattle.options.specs.Named.{at as at_part};
ghost use Rattle.options.specs.inner.Written.{stepped_of, Steppable, constant_made, option_made};

use faults::{Fault, on_last};
use field::{Field, field_at};
use limits::MOST_CONSTANTS;
use records::{enclose, shortest_head};
use scope::lookup::LookupScope;
use sheet::declaration::Shape;
use steps::{Reach, reach_of};
use values::put_value;

// The constant at a place, which an option ends with, on a field of that shape; its refusal is one of this part.
#[tactic(auto, using(crate::proofs::settle::PutLaws::constant_laws))]
fn put_constant(
    sheet: &[u8],
    request: &[u8],
    shape: Shape,
    from: usize,
    to: usize,
    part: u32,
    out: &mut [u8],
    at: usize,
) -> Result<usize, Fault>
    requires from_le_to { (from ≤ to) × (to ≤ length request.now) }
    requires lies { Lies shape.path sheet.now }
    requires roomy { Roomy at (to - from) request.now }
    ensures { Emits stepped_of
        (at_part part (constant_made (walking sheet.now) sheet.now request.now shape from to))
        (bytes_most (to - from)) out.old at out.new result }
{
    let Some(field) = field_at(request, from, to) else {
        return Ok(at);
    };
    let wrote = put_value(
        sheet,
        request,
        shape,
        field.tag,
        field.from,
        field.to,
        MOST_CONSTANTS,
        out,
        at,
    );
    on_last(part, wrote)
}

// The record of a message that parts go inside: they are written behind the shortest head, and then enclosed.
#[cycle(put_inside_put_option)]
fn put_inside(
    sheet: &[u8],
    request: &[u8],
    scope: &[u8],
    number: u32,
    message: &[u8],
    place: LookupScope,
    from: usize,
    to: usize,
    part: u32,
    out: &mut [u8],
    at: usize,
) -> Result<usize, Fault>
    requires steppable { Steppable sheet.now request.now scope.now place from to part }
    requires roomy { Roomy at (3 + (to - from)) request.now }
    ensures { Emits stepped_of (holding number (option_made (walking sheet.now) sheet.now request.now
        scope.now part (message_of message.now place) from to)) (bytes_most (3 + (to - from)))
        out.old at out.new result }
{
    let start = at + shortest_head(number);
    let end = put_option(
        sheet, request, scope, message, place, from, to, part, out, start,
    )?;
    Ok(enclose(out, at, number, end - start))
}

// The parts of a name from a place on, the one at `part` first, in the message of that name and place, and the constant behind them.
#[cycle(put_inside_put_option)]
pub fn put_option(
    sheet: &[u8],
    request: &[u8],
    scope: &[u8],
    message: &[u8],
    place: LookupScope,
    from: usize,
    to: usize,
    part: u32,
    out: &mut [u8],
    at: usize,
) -> Result<usize, Fault>
    requires steppable { Steppable sheet.now request.now scope.now place from to part }
    requires roomy { Roomy at (to - from) request.now }
    ensures { Emits stepped_of (option_made (walking sheet.now) sheet.now request.now scope.now
        part (message_of message.now place) from to) (bytes_most (to - from)) out.old at out.new result }
{
    match reach_of(sheet, request, scope, message, place, from, to) {
        Err(why) => Err(Fault { part, why }),
        Ok(Reach::Nothing) => Ok(at),
        Ok(Reach::Constant { shape, from: rest }) => {
            put_constant(sheet, request, shape, rest, to, part, out, at)
        }
        Ok(
            Reach::Inside {
                shape,
                place: inner,
                from: rest,
            },
        ) => {
            let a = shape.path.from;
            let e = shape.path.to;
            put_inside(
                sheet,
                request,
                scope,
                shape.number,
                &sheet[a..e],
                inner,
                rest,
                to,
                part + 1,
                out,
                at,
            )
        }
    }
}
